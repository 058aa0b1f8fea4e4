// Classes of bytes, in the words of the token relation.

ghost use Rattle.std.specs.Prelude.{◌↔◌, IsTrue};
ghost use Rattle.est_ast.specs.Lexemes.{IsSpace, IsLetter, IsDigit, IsNameByte};

/// Space, tab, line feed, form feed and carriage return.
pub fn is_space(byte: u8) -> bool
    ensures { IsTrue result ↔ IsSpace byte }
{
    matches!(byte, b' ' | b'\t' | b'\n' | b'\x0c' | b'\r')
}

/// A letter of ASCII.
pub fn is_letter(byte: u8) -> bool
    ensures { IsTrue result ↔ IsLetter byte }
{
    base_types::is_letter(byte)
}

/// A decimal digit.
pub fn is_digit(byte: u8) -> bool
    ensures { IsTrue result ↔ IsDigit byte }
{
    base_types::is_digit(byte)
}

/// A letter, a digit or `_`.
pub fn is_name_byte(byte: u8) -> bool
    ensures { IsTrue result ↔ IsNameByte byte }
{
    base_types::is_name_byte(byte)
}
