ghost use Rattle.std.specs.Prelude.{◌≡◌, codes};
ghost use Rattle.ac_lex.specs.Bytes as spec;

pub fn is_indent(b: u8) -> bool
    ensures { result ≡ spec.is_indent b }
{
    b == b' ' || b == b'\t'
}

pub fn is_white_byte(b: u8) -> bool
    ensures { result ≡ spec.is_white_byte b }
{
    b == b' ' || b >= 9 && b <= 13
}

pub fn is_gap(b: u8) -> bool
    ensures { result ≡ spec.is_gap b }
{
    is_white_byte(b) && is_inside_line(b)
}

pub fn is_inside_line(b: u8) -> bool
    ensures { result ≡ spec.is_inside_line b }
{
    b != b'\n'
}

pub fn is_digit(b: u8) -> bool
    ensures { result ≡ spec.is_digit b }
{
    b >= b'0' && b <= b'9'
}

pub fn is_letter(b: u8) -> bool
    ensures { result ≡ spec.is_letter b }
{
    b >= b'a' && b <= b'z' || b >= b'A' && b <= b'Z' || b == b'_'
}

pub fn is_word_byte(b: u8) -> bool
    ensures { result ≡ spec.is_word_byte b }
{
    is_letter(b) || is_digit(b)
}

pub fn is_exponent_letter(b: u8) -> bool
    ensures { result ≡ spec.is_exponent_letter b }
{
    is_one_of(b"eE", b)
}

pub fn is_sign(b: u8) -> bool
    ensures { result ≡ spec.is_sign b }
{
    is_one_of(b"+-", b)
}

pub fn is_suffix_letter(b: u8) -> bool
    ensures { result ≡ spec.is_suffix_letter b }
{
    is_one_of(b"fFlL", b)
}

pub fn is_one_of(text: &[u8], b: u8) -> bool
    ensures { result ≡ spec.is_one_of text.now b }
{
    text.iter().any(|c| b == *c)
}
