//! Laws of the definitions, each the contract of a function that does nothing.
ghost use Rattle.yaml_base.specs.values.JsonNumbers.{NumbersAreRead};
ghost use Rattle.yaml_base.specs.values.SurelyText.{SurelyTextIsText};
ghost use Rattle.yaml_writer.specs.Dates.{DatesAreRead, WrittenDatesArePlain};
ghost use Rattle.yaml_writer.specs.Floats.{SpecialFloatsAreRead};
ghost use Rattle.yaml_writer.specs.Headings.{HeadingsArePassedOver};
ghost use Rattle.yaml_writer.specs.PlainTags.{PlainTagsAreAll, PlainTagsAreRead};
ghost use Rattle.yaml_writer.specs.PlainTexts.{PlainTextsAreTexts};
ghost use Rattle.yaml_writer.specs.ReadNumbers.{WrittenNumbersAreRead};
ghost use Rattle.yaml_writer.specs.Times.{TimestampsAreRead, WrittenTimestampsArePlain};
ghost use Rattle.yaml_writer.specs.TypedEvents.{TypedEventsAreRead};

/// States that a text that is surely one means a text by the type repository of YAML 1.1 and by the core schema of YAML 1.2.
pub fn surely_text_is_text()
    ensures { SurelyTextIsText }
{}

/// States that the spelling that a writer gives a number of JSON means exactly that number by both.
pub fn numbers_are_read()
    ensures { NumbersAreRead }
{}

/// States that a text in the style that a writer gives it, whichever was asked for, is written plain only if both schemas read
/// it as a text.
pub fn plain_texts_are_texts()
    ensures { PlainTextsAreTexts }
{}

/// States that a number that a writer is given is written plain outside canonical form, in a text which both schemas read as
/// exactly that number.
pub fn written_numbers_are_read()
    ensures { WrittenNumbersAreRead }
{}

/// States that both schemas read `.inf`, `-.inf` and `.nan` as exactly these floats.
pub fn special_floats_are_read()
    ensures { SpecialFloatsAreRead }
{}

/// States that the text of every date means a timestamp by the type repository of YAML 1.1, and its parts are that date's.
pub fn dates_are_read()
    ensures { DatesAreRead }
{}

/// States that the text of every date, asked for plain, is written so outside canonical form, in flow, too, and as a key.
pub fn written_dates_are_plain()
    ensures { WrittenDatesArePlain }
{}

/// States that the text of every timestamp, with a time of day or without, means a timestamp by the type repository of YAML
/// 1.1, and its parts are that timestamp's.
pub fn timestamps_are_read()
    ensures { TimestampsAreRead }
{}

/// States that the text of every timestamp, asked for plain, is written so in block outside canonical form.
pub fn written_timestamps_are_plain()
    ensures { WrittenTimestampsArePlain }
{}

/// States that a text that has a plain tag, asked for plain, is written so outside canonical form, in flow, too, and as a key; and
/// both schemas read the same of it, a value with this tag.
pub fn plain_tags_are_read()
    ensures { PlainTagsAreRead }
{}

/// States that there are no other plain tags: a text to which both schemas give the same tag, other than that of texts, has it as its
/// plain tag, unless they read two integers of it. The empty text has none: both read null, but it can't be plain everywhere.
pub fn plain_tags_are_all()
    ensures { PlainTagsAreAll }
{}

/// States that the nodes that are read of a stream of typed events have the tags of these events, whichever schema gives tags to nodes
/// without one. This holds for each stream whose scalars have tags, and whose collections' tags are left out only if they are the tags
/// of their kinds.
pub fn typed_events_are_read()
    ensures { TypedEventsAreRead }
{}

/// States that a text after lines of comments is read as the text alone, and so are its bytes in UTF-8.
pub fn headings_are_passed_over()
    ensures { HeadingsArePassedOver }
{}
