//! The character classes of XML 1.0 (fifth edition), with names as in Namespaces in XML 1.0: without the colon.

ghost use Rattle.std.specs.Prelude.{◌≡◌};
ghost use Rattle.sch_base.specs.Characters.{is_xml_char, is_name_start, is_name_char, is_whitespace};

/// Whether the character may stand in a document: Char of XML 1.0, section 2.2.
#[tactic(auto, unfolding(crate::specs::Characters::is_xml_char))]
pub fn is_xml_char(c: char) -> bool
    ensures { result ≡ is_xml_char c }
{
    matches!(
        c,
        '\t' | '\n' | '\r' | '\u{20}'..='\u{d7ff}' | '\u{e000}'..='\u{fffd}' | '\u{10000}'..='\u{10ffff}'
    )
}

/// Whether a name may begin with the character: NameStartChar of XML 1.0, section 2.3, without the colon.
#[tactic(auto, unfolding(crate::specs::Characters::is_name_start))]
pub fn is_name_start(c: char) -> bool
    ensures { result ≡ is_name_start c }
{
    matches!(
        c,
        'A'..='Z'
            | '_'
            | 'a'..='z'
            | '\u{c0}'..='\u{d6}'
            | '\u{d8}'..='\u{f6}'
            | '\u{f8}'..='\u{2ff}'
            | '\u{370}'..='\u{37d}'
            | '\u{37f}'..='\u{1fff}'
            | '\u{200c}'..='\u{200d}'
            | '\u{2070}'..='\u{218f}'
            | '\u{2c00}'..='\u{2fef}'
            | '\u{3001}'..='\u{d7ff}'
            | '\u{f900}'..='\u{fdcf}'
            | '\u{fdf0}'..='\u{fffd}'
            | '\u{10000}'..='\u{effff}'
    )
}

/// Whether a name may have the character after its first one: NameChar of XML 1.0, section 2.3, without the colon.
#[tactic(auto, unfolding(crate::specs::Characters::is_name_char))]
pub fn is_name_char(c: char) -> bool
    ensures { result ≡ is_name_char c }
{
    is_name_start(c)
        || matches!(c, '-' | '.' | '0'..='9' | '\u{b7}' | '\u{300}'..='\u{36f}' | '\u{203f}'..='\u{2040}')
}

/// Whether the character is whitespace: S of XML 1.0, section 2.3.
#[tactic(auto, unfolding(crate::specs::Characters::is_whitespace))]
pub fn is_whitespace(c: char) -> bool
    ensures { result ≡ is_whitespace c }
{
    matches!(c, ' ' | '\t' | '\n' | '\r')
}
