//! Reserved words, told by their first letter first.

ghost use Rattle.std.specs.Prelude.{◌≡◌};
ghost use Rattle.std.specs.List.{list_any};
ghost use Rattle.std.specs.Str.{bytes_eq};
ghost use Rattle.sy_lex.specs.Rows as rows;
ghost use Rattle.sy_lex.specs.Front.{words_between};

macro_rules! is_one_of {
    ($text:expr; $($word:literal),+) => {
        $($text == $word.as_slice())||+
    };
}

fn has_a_to_b(text: &[u8]) -> bool
    ensures { result ≡ list_any (bytes_eq text.now) (words_between 97 98) }
{
    is_one_of!(
        text;
        b"alignas",
        b"alignof",
        b"asm",
        b"auto",
        b"bool",
        b"break",
        b"and",
        b"and_eq",
        b"bitand",
        b"bitor"
    )
}

fn has_c(text: &[u8]) -> bool
    ensures { result ≡ list_any (bytes_eq text.now) (words_between 99 99) }
{
    is_one_of!(
        text;
        b"case",
        b"catch",
        b"char",
        b"char16_t",
        b"char32_t",
        b"class",
        b"const",
        b"constexpr",
        b"const_cast",
        b"continue",
        b"compl"
    )
}

fn has_d_to_e(text: &[u8]) -> bool
    ensures { result ≡ list_any (bytes_eq text.now) (words_between 100 101) }
{
    is_one_of!(
        text;
        b"decltype",
        b"default",
        b"delete",
        b"do",
        b"double",
        b"dynamic_cast",
        b"else",
        b"enum",
        b"explicit",
        b"export",
        b"extern"
    )
}

fn has_f_to_i(text: &[u8]) -> bool
    ensures { result ≡ list_any (bytes_eq text.now) (words_between 102 105) }
{
    is_one_of!(
        text;
        b"false",
        b"float",
        b"for",
        b"friend",
        b"goto",
        b"if",
        b"inline",
        b"int",
        b"int8_t",
        b"int16_t",
        b"int32_t",
        b"int64_t"
    )
}

fn has_j_to_n(text: &[u8]) -> bool
    ensures { result ≡ list_any (bytes_eq text.now) (words_between 106 110) }
{
    is_one_of!(
        text;
        b"long",
        b"mutable",
        b"namespace",
        b"new",
        b"noexcept",
        b"nullptr",
        b"not",
        b"not_eq"
    )
}

fn has_o_to_r(text: &[u8]) -> bool
    ensures { result ≡ list_any (bytes_eq text.now) (words_between 111 114) }
{
    is_one_of!(
        text;
        b"operator",
        b"private",
        b"protected",
        b"public",
        b"register",
        b"reinterpret_cast",
        b"return",
        b"or",
        b"or_eq"
    )
}

fn has_s(text: &[u8]) -> bool
    ensures { result ≡ list_any (bytes_eq text.now) (words_between 115 115) }
{
    is_one_of!(
        text;
        b"short",
        b"signed",
        b"sizeof",
        b"static",
        b"static_assert",
        b"static_cast",
        b"struct",
        b"switch",
        b"size_t"
    )
}

fn has_t(text: &[u8]) -> bool
    ensures { result ≡ list_any (bytes_eq text.now) (words_between 116 116) }
{
    is_one_of!(
        text;
        b"template",
        b"this",
        b"thread_local",
        b"throw",
        b"true",
        b"try",
        b"typedef",
        b"typeid",
        b"typename"
    )
}

fn has_u_to_z(text: &[u8]) -> bool
    ensures { result ≡ list_any (bytes_eq text.now) (words_between 117 122) }
{
    is_one_of!(
        text;
        b"union",
        b"unsigned",
        b"using",
        b"virtual",
        b"void",
        b"volatile",
        b"wchar_t",
        b"while",
        b"xor",
        b"xor_eq",
        b"uint8_t",
        b"uint16_t",
        b"uint32_t",
        b"uint64_t"
    )
}

/// Whether a name is reserved: a keyword, another spelling of an operator, or the name of an integer type.
pub fn is_reserved(text: &[u8]) -> bool
    ensures { result ≡ rows.is_reserved text.now }
{
    match text {
        [b'a'..=b'b', ..] => has_a_to_b(text),
        [b'c', ..] => has_c(text),
        [b'd'..=b'e', ..] => has_d_to_e(text),
        [b'f'..=b'i', ..] => has_f_to_i(text),
        [b'j'..=b'n', ..] => has_j_to_n(text),
        [b'o'..=b'r', ..] => has_o_to_r(text),
        [b's', ..] => has_s(text),
        [b't', ..] => has_t(text),
        [b'u'..=b'z', ..] => has_u_to_z(text),
        _ => false,
    }
}
