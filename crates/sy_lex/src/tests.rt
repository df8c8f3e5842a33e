// The rows of the table with their edges, worked out by hand from the rules.

use super::*;
use std::test::Fail;

/// Each line is one token of that row.
#[test]
fn single_tokens(rt: HostRuntime) -> Result<(), Fail> {
    let table: [(Row, &[u8]); 20] = [
        (
            Row::Ident,
            b"a\nZ\n_\nmain\nx1\n_Z9\nint_\nInt\ndo1\nandy\nxo\ndou\ndoubles\noverride\nfinal\nimport\nsize_t_",
        ),
        (Row::Ident, b"uint8\nint128_t\nreinterpret_casts\nalignofs"),
        (
            Row::Reserved,
            b"alignas\nalignof\nasm\nauto\nbool\nbreak\ncase\ncatch\nchar\nchar16_t\nchar32_t\nclass\nconst",
        ),
        (
            Row::Reserved,
            b"constexpr\nconst_cast\ncontinue\ndecltype\ndefault\ndelete\ndo\ndouble\ndynamic_cast\nelse",
        ),
        (
            Row::Reserved,
            b"enum\nexplicit\nexport\nextern\nfalse\nfloat\nfor\nfriend\ngoto\nif\ninline\nint\nlong\nmutable",
        ),
        (
            Row::Reserved,
            b"namespace\nnew\nnoexcept\nnullptr\noperator\nprivate\nprotected\npublic\nregister",
        ),
        (
            Row::Reserved,
            b"reinterpret_cast\nreturn\nshort\nsigned\nsizeof\nstatic\nstatic_assert\nstatic_cast\nstruct",
        ),
        (
            Row::Reserved,
            b"switch\ntemplate\nthis\nthread_local\nthrow\ntrue\ntry\ntypedef\ntypeid\ntypename\nunion",
        ),
        (
            Row::Reserved,
            b"unsigned\nusing\nvirtual\nvoid\nvolatile\nwchar_t\nwhile\nand\nand_eq\nbitand\nbitor\ncompl\nnot",
        ),
        (
            Row::Reserved,
            b"not_eq\nor\nor_eq\nxor\nxor_eq\nsize_t\nint8_t\nint16_t\nint32_t\nint64_t\nuint8_t\nuint16_t",
        ),
        (Row::Reserved, b"uint32_t\nuint64_t"),
        (
            Row::Int,
            b"0\n7\n9\n10\n1234567890\n00\n007\n0123\n0x1\n0X1F\n0xabcdefABCDEF0\n0b0\n0B101\n1u\n1U\n1l\n1L\n1ll",
        ),
        (
            Row::Int,
            b"1LL\n1ul\n1uL\n1Ul\n1UL\n1ull\n1uLL\n1Ull\n1ULL\n1lu\n1lU\n1Lu\n1LU\n1llu\n1llU\n1LLu\n1LLU\n0u\n07ull",
        ),
        (Row::Int, b"0xfUL\n0b1LLU\n99999999999999999999999999"),
        (
            Row::Char,
            b"'a'\n' '\n'~'\n'\"'\n'0'\n'\\n'\n'\\t'\n'\\r'\n'\\0'\n'\\\\'\n'\\''\n'\\\"'",
        ),
        (
            Row::Str,
            b"\"\"\n\" \"\n\"~\"\n\"a b\"\n\"'\"\n\"\\n\\t\\r\\0\\\\\\'\\\"\"\n\"\x80\xff\"\n\"//\"\n\"/*\"\n\"\\\"\"\n\"\\\\\"",
        ),
        (
            Row::Include,
            b"#include <sycl/sycl.hpp>\n#include <iostream>\n#include <vector>\n#include <thread>",
        ),
        (
            Row::Include,
            b"#include <cstdint>\n#include<vector>\n# include <vector>\n#\t \rinclude\r\t  <thread>",
        ),
        (
            Row::Mark,
            b"{\n}\n(\n)\n[\n]\n;\n:\n::\n,\n.\n?\n+\n-\n*\n/\n%\n&\n|\n^\n~\n!\n=\n<\n>\n+=\n-=\n*=\n/=\n%=\n&=\n|=\n^=\n<<\n>>\n<<=",
        ),
        (Row::Mark, b">>=\n==\n!=\n<=\n>=\n&&\n||\n++\n--"),
    ];
    for (row, source) in table {
        assert!(rt; source.len() <= 1048576);
        let list = tokens(rt.alloc(), source)?;
        let mut found = list.iter();
        for text in source.split(|b| *b == b'\n') {
            let token = found.next().ok_or("a token is missing")?;
            assert_eq!(rt; token.word.row, row, "{text:?}");
            assert_eq!(rt; token.word.text.items(), text);
        }
        assert!(rt; found.next().is_none());
    }
    Ok(())
}

/// The tokens with their places: row, first byte, end, line and column.
#[test]
fn readings(rt: HostRuntime) -> Result<(), Fail> {
    let table: [(&[u8], &[(Row, u32, u32, u32, u32)]); 36] = [
        (b"", &[]),
        (b" \t\r\n", &[]),
        (
            b"int main(){ return 8; }",
            &[
                (Row::Reserved, 0, 3, 1, 1),
                (Row::Ident, 4, 8, 1, 5),
                (Row::Mark, 8, 9, 1, 9),
                (Row::Mark, 9, 10, 1, 10),
                (Row::Mark, 10, 11, 1, 11),
                (Row::Reserved, 12, 18, 1, 13),
                (Row::Int, 19, 20, 1, 20),
                (Row::Mark, 20, 21, 1, 21),
                (Row::Mark, 22, 23, 1, 23),
            ],
        ),
        (b"+++", &[(Row::Mark, 0, 2, 1, 1), (Row::Mark, 2, 3, 1, 3)]),
        (b"->", &[(Row::Mark, 0, 1, 1, 1), (Row::Mark, 1, 2, 1, 2)]),
        (b"..", &[(Row::Mark, 0, 1, 1, 1), (Row::Mark, 1, 2, 1, 2)]),
        (b":::", &[(Row::Mark, 0, 2, 1, 1), (Row::Mark, 2, 3, 1, 3)]),
        (b"<=>", &[(Row::Mark, 0, 2, 1, 1), (Row::Mark, 2, 3, 1, 3)]),
        (b"<<<=", &[(Row::Mark, 0, 2, 1, 1), (Row::Mark, 2, 4, 1, 3)]),
        (b">>>=", &[(Row::Mark, 0, 2, 1, 1), (Row::Mark, 2, 4, 1, 3)]),
        (b"===", &[(Row::Mark, 0, 2, 1, 1), (Row::Mark, 2, 3, 1, 3)]),
        (b"&&=", &[(Row::Mark, 0, 2, 1, 1), (Row::Mark, 2, 3, 1, 3)]),
        (b"*/", &[(Row::Mark, 0, 1, 1, 1), (Row::Mark, 1, 2, 1, 2)]),
        (b"/ /=", &[(Row::Mark, 0, 1, 1, 1), (Row::Mark, 2, 4, 1, 3)]),
        (
            b"1.5",
            &[
                (Row::Int, 0, 1, 1, 1),
                (Row::Mark, 1, 2, 1, 2),
                (Row::Int, 2, 3, 1, 3),
            ],
        ),
        (
            b"x=1;",
            &[
                (Row::Ident, 0, 1, 1, 1),
                (Row::Mark, 1, 2, 1, 2),
                (Row::Int, 2, 3, 1, 3),
                (Row::Mark, 3, 4, 1, 4),
            ],
        ),
        (
            b"0+1",
            &[
                (Row::Int, 0, 1, 1, 1),
                (Row::Mark, 1, 2, 1, 2),
                (Row::Int, 2, 3, 1, 3),
            ],
        ),
        (
            b"u8\"x\"",
            &[(Row::Ident, 0, 2, 1, 1), (Row::Str, 2, 5, 1, 3)],
        ),
        (
            b"\"\"\"\"",
            &[(Row::Str, 0, 2, 1, 1), (Row::Str, 2, 4, 1, 3)],
        ),
        (
            b"'a''b'",
            &[(Row::Char, 0, 3, 1, 1), (Row::Char, 3, 6, 1, 4)],
        ),
        (
            b"do while",
            &[(Row::Reserved, 0, 2, 1, 1), (Row::Reserved, 3, 8, 1, 4)],
        ),
        (b"dowhile", &[(Row::Ident, 0, 7, 1, 1)]),
        (
            b"#include <vector>#include<thread>int",
            &[
                (Row::Include, 0, 17, 1, 1),
                (Row::Include, 17, 33, 1, 18),
                (Row::Reserved, 33, 36, 1, 34),
            ],
        ),
        (b"/*/*/a", &[(Row::Ident, 5, 6, 1, 6)]),
        (b"/**/a", &[(Row::Ident, 4, 5, 1, 5)]),
        (b"/***/a", &[(Row::Ident, 5, 6, 1, 6)]),
        (b"/*\x80\x00\"*/a", &[(Row::Ident, 7, 8, 1, 8)]),
        (b"/*\n*//**/a", &[(Row::Ident, 9, 10, 2, 7)]),
        (b"//", &[]),
        (b"// x */ \"", &[]),
        (
            b"a//\x80\x07\nb",
            &[(Row::Ident, 0, 1, 1, 1), (Row::Ident, 6, 7, 2, 1)],
        ),
        (b"//a\rb\nc", &[(Row::Ident, 6, 7, 2, 1)]),
        (
            b"a\rb",
            &[(Row::Ident, 0, 1, 1, 1), (Row::Ident, 2, 3, 1, 3)],
        ),
        (
            b"a\r\n\r\n\tb",
            &[(Row::Ident, 0, 1, 1, 1), (Row::Ident, 6, 7, 3, 2)],
        ),
        (
            b"a/b",
            &[
                (Row::Ident, 0, 1, 1, 1),
                (Row::Mark, 1, 2, 1, 2),
                (Row::Ident, 2, 3, 1, 3),
            ],
        ),
        (
            b"a/**/b//*\n*/c",
            &[
                (Row::Ident, 0, 1, 1, 1),
                (Row::Ident, 5, 6, 1, 6),
                (Row::Mark, 10, 11, 2, 1),
                (Row::Mark, 11, 12, 2, 2),
                (Row::Ident, 12, 13, 2, 3),
            ],
        ),
    ];
    for (source, wanted) in table {
        assert!(rt; source.len() <= 1048576);
        let list = tokens(rt.alloc(), source)?;
        assert_eq!(rt; list.len(), wanted.len(), "{source:?}");
        for (token, want) in list.iter().zip(wanted) {
            let spot = token.spot;
            assert_eq!(rt;
                (token.word.row, token.from, token.to, spot.line, spot.column),
                *want,
                "{source:?}"
            );
            assert_eq!(rt;
                source.get(token.from as usize..token.to as usize),
                Some(token.word.text.items())
            );
        }
    }
    Ok(())
}

/// Where no token begins.
#[test]
fn refusals(rt: HostRuntime) -> Result<(), Fail> {
    let table: [(&[u8], u32, u32); 56] = [
        (b"08", 1, 1),
        (b"0x", 1, 1),
        (b"0xg", 1, 1),
        (b"0b", 1, 1),
        (b"0b2", 1, 1),
        (b"1lul", 1, 1),
        (b"1lL", 1, 1),
        (b"1Ll", 1, 1),
        (b"1uu", 1, 1),
        (b"1lll", 1, 1),
        (b"1_", 1, 1),
        (b"9a", 1, 1),
        (b"0x1g", 1, 1),
        (b"'''", 1, 1),
        (b"''", 1, 1),
        (b"'ab'", 1, 1),
        (b"'\\q'", 1, 1),
        (b"'a", 1, 1),
        (b"'", 1, 1),
        (b"'\\'", 1, 1),
        (b"'\\n", 1, 1),
        (b"'\x80'", 1, 1),
        (b"'\t'", 1, 1),
        (b"'\x7f'", 1, 1),
        (b"\"\\q\"", 1, 1),
        (b"\"a", 1, 1),
        (b"\"", 1, 1),
        (b"\"\\\"", 1, 1),
        (b"\"a\n\"", 1, 1),
        (b"\"\t\"", 1, 1),
        (b"\"\x7f\"", 1, 1),
        (b"\"\x1f\"", 1, 1),
        (b"/*", 1, 1),
        (b"/*/", 1, 1),
        (b"a /* *", 1, 3),
        (b"#include <map>", 1, 1),
        (b"#include <vector >", 1, 1),
        (b"#includes <vector>", 1, 1),
        (b"#\ninclude <vector>", 1, 1),
        (b"#include\n<vector>", 1, 1),
        (b"#define", 1, 1),
        (b"#", 1, 1),
        (b"#include \"vector\"", 1, 1),
        (b"@", 1, 1),
        (b"$", 1, 1),
        (b"`", 1, 1),
        (b"\\", 1, 1),
        (b"\x00", 1, 1),
        (b"\x7f", 1, 1),
        (b"\x80", 1, 1),
        (b"a\xff", 1, 2),
        (b"\x0b", 1, 1),
        (b"\x0c", 1, 1),
        (b"a\n  b @", 2, 5),
        (b"int main(){ return 08; }", 1, 20),
        (b"int main(){ std::cout << \"ab", 1, 26),
    ];
    for (source, line, column) in table {
        assert!(rt; source.len() <= 1048576);
        let refused = FrontStop::Refused(Diagnostic {
            spot: Spot { line, column },
            code: Code::Lexical,
        });
        match tokens(rt.alloc(), source) {
            Ok(_) => assert!(rt; false, "{source:?}"),
            Err(stop) => assert_eq!(rt; stop, refused, "{source:?}"),
        }
    }
    Ok(())
}

#[test]
fn texts(rt: HostRuntime) -> Result<(), Fail> {
    let text = Text::of(Vec::from_slice(rt.alloc(), b"ab")?);
    assert_eq!(rt; text.items(), b"ab".as_slice());
    for bytes in [
        b"".as_slice(),
        b"0123456789abcdefghijklmnopqrst".as_slice(),
        b"0123456789abcdefghijklmnopqrstu".as_slice(),
    ] {
        assert_eq!(rt; Text::copied(rt.alloc(), bytes)?.items(), bytes);
    }
    Ok(())
}
