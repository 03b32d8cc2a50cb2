//! Laws of written tags, for all documents. Each function does nothing: its contract is the law.
ghost use Rattle.std.specs.Prelude.{Bool, List};
ghost use Rattle.yaml_base.specs.Event.{TagDirective};
ghost use Rattle.yaml_base.specs.Characters.{Text};
ghost use Rattle.yaml_mark.specs.Laws.{EscapedTextReads, EscapedSuffixReads, EscapedPrefixReads, PortableSuffixHoldsNoFlowIndicator};
ghost use Rattle.yaml_mark.specs.Laws.{EscapedTextSeparatesNothing};
ghost use Rattle.yaml_mark.specs.Laws.{WrittenTagReads, WrittenTagIsOneWord, WrittenTagIsNotBare};

/// States that a text whose characters were escaped by percent forms, in a tag, after a handle or in a prefix, is
/// decoded as itself.
pub fn escaped_text_reads()
    ensures tag { (text : Text) → EscapedTextReads text }
    ensures suffix { (portable : Bool) (text : Text) → EscapedSuffixReads portable text }
    ensures prefix { (portable : Bool) (text : Text) → EscapedPrefixReads portable text }
{}

/// States that in portable mode no flow indicator follows a handle; readers would end a tag there.
pub fn portable_suffix_holds_no_flow_indicator()
    ensures { (text : Text) → PortableSuffixHoldsNoFlowIndicator text }
{}

/// States that the written form of a tag, read with the document's directives and the defaults, is the tag, if the
/// directives are well-formed and give each handle once.
pub fn written_tag_reads()
    ensures { (portable : Bool) (own : List TagDirective) (tag : Text) → WrittenTagReads portable own tag }
{}

/// States that escaped text holds no blank, no break, no `!`, no `<` and no `>`. A written tag holds no blank and no
/// break, and is never the bare tag.
pub fn written_tag_stays_one_word()
    ensures escaped { (text : Text) → EscapedTextSeparatesNothing text }
    ensures one_word { (portable : Bool) (own : List TagDirective) (tag : Text) → WrittenTagIsOneWord portable own tag }
    ensures not_bare { (portable : Bool) (own : List TagDirective) (tag : Text) → WrittenTagIsNotBare portable own tag }
{}
