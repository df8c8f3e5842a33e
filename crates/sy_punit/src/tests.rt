//! Short sources: which are taken, and where the others are refused.

use super::*;
use std::test::Fail;
use sy_lex::tokens;
use sy_pexpr::{block, expr};

/// What a text comes to.
#[derive(Clone, Copy, PartialEq, Eq, Debug)]
enum Answer {
    Taken,
    RefusedAt(u32, u32),
    Other,
}

fn outcome(rt: HostRuntime, text: &[u8]) -> Answer {
    if text.len() > 4096 {
        return Answer::Other;
    }
    let toks = match tokens(rt.alloc(), text) {
        Ok(toks) => toks,
        Err(_) => return Answer::Other,
    };
    match parse(rt.alloc(), text, toks) {
        Ok(_) => Answer::Taken,
        Err(FrontStop::Refused(refusal)) => {
            Answer::RefusedAt(refusal.spot.line, refusal.spot.column)
        }
        Err(FrontStop::Memory) => Answer::Other,
    }
}

/// The first of these texts that isn't taken or refused as that says, with that before it and that behind it.
fn first_wrong(
    rt: HostRuntime,
    taken: bool,
    before: &[u8],
    texts: &[&'static [u8]],
    behind: &[u8],
) -> Result<Option<usize>, Fail> {
    for (number, text) in texts.iter().enumerate() {
        let mut whole = Vec::new(rt.alloc());
        whole.extend_from_slice(before)?;
        whole.extend_from_slice(text)?;
        whole.extend_from_slice(behind)?;
        let got = matches!(outcome(rt, whole.as_slice()), Answer::Taken);
        if got != taken {
            return Ok(Some(number));
        }
    }
    Ok(None)
}

/// Right sides of an assignment that are in the grammar.
const VALUES_TAKEN: [&'static [u8]; 66] = [
    b"1",
    b"0x1Ful",
    b"'a'",
    b"'\\n'",
    b"true",
    b"false",
    b"y",
    b"f()",
    b"f(1, y)",
    b"(y)",
    b"static_cast<unsigned long>(y)",
    b"unsigned(y)",
    b"int(y) + 1",
    b"(int) y",
    b"(int)(y)",
    b"(unsigned long long int) y",
    b"(int) -y * 2",
    b"std::uint32_t(y)",
    b"sycl::range<2>(2, 3)",
    b"sycl::range(2)",
    b"sycl::id{1, 2}",
    b"sycl::nd_range<1>{{4}, {2}}",
    b"sycl::queue{}",
    b"sycl::event()",
    b"sycl::read_only",
    b"sycl::write_only",
    b"sycl::read_write",
    b"sycl::no_init",
    b"sycl::property::queue::in_order{}",
    b"sycl::property::queue::in_order()",
    b"sycl::property::reduction::initialize_to_identity{}",
    b"sycl::errc::invalid",
    b"sycl::plus<>{}",
    b"sycl::multiplies<int>()",
    b"sycl::minimum<>{}",
    b"sycl::maximum<>{}",
    b"sycl::bit_and<unsigned>{}",
    b"sycl::bit_or<>{}",
    b"sycl::bit_xor<>{}",
    b"sycl::reduction(b, h, sycl::plus<>{})",
    b"sycl::reduce_over_group(g, y, sycl::plus<>())",
    b"sycl::exclusive_scan_over_group(g, y, sycl::plus<>())",
    b"sycl::inclusive_scan_over_group(g, y, sycl::plus<>())",
    b"sycl::group_broadcast(g, y)",
    b"sycl::group_barrier(g)",
    b"v[1][y + 1]",
    b"v.size()",
    b"v.begin().next(1, {2, 3})",
    b"q.get_info<sycl::info::device::name>()",
    b"y++",
    b"y--",
    b"++y",
    b"--y",
    b"+y",
    b"!~-y",
    b"-y++",
    b"a * b / c % d",
    b"a + b - c",
    b"a << b >> c",
    b"a < b > c",
    b"a <= b >= c",
    b"a == b != c",
    b"a & b ^ c | d",
    b"a && b || c",
    b"a ? b : c ? d : e",
    b"a ? b ? c : d : e",
];

/// Right sides of an assignment that are not in the grammar.
const VALUES_NOT_TAKEN: [&'static [u8]; 36] = [
    b"",
    b"a b",
    b"f(1,)",
    b"(int)",
    b"(unsigned int(y))",
    b"unsigned int(y)",
    b"static_cast<y>(y)",
    b"static_cast<int> y",
    b"sycl::range<n>(2)",
    b"sycl::nd_item<1>(y)",
    b"sycl::local_accessor(1, h)",
    b"sycl::plus{}",
    b"sycl::plus<>",
    b"sycl::group_barrier()",
    b"sycl::errc",
    b"sycl::property::queue::enable{}",
    b"v[]",
    b"v[1",
    b"v.size",
    b"v.size<K>()",
    b"a ? b",
    b"a ? b c",
    b"a +",
    b"* a",
    b"(a",
    b"a)",
    b"\"text\"",
    b"(a = b)",
    b"f(a = b)",
    b"a, b",
    b"{1}",
    b"a = b",
    b"y+++",
    b"[&] { }",
    b"[] { }()",
    b"std::max(a, b)",
];

/// Bodies of a function that are in the grammar.
const STATEMENTS_TAKEN: [&'static [u8]; 67] = [
    b";",
    b"{}",
    b"{ { ; } }",
    b"int y;",
    b"int y = 1, z{2}, w(3), u;",
    b"const auto y = 1;",
    b"constexpr unsigned long long int y{1};",
    b"auto y = 1;",
    b"std::uint8_t y = 1;",
    b"std::size_t y;",
    b"short int y; long y; signed char z; unsigned w; bool b; char c; unsigned short int u;",
    b"std::vector<int> v;",
    b"std::vector<unsigned> v(3, 1);",
    b"std::vector<std::int64_t> v{1, 2};",
    b"std::vector<int> v = w;",
    b"std::vector<sycl::device> d = p.get_devices();",
    b"std::vector<sycl::device> d{};",
    b"std::vector<std::thread> t;",
    b"std::thread t([&] { f(); });",
    b"std::thread t{[=]() { ; }};",
    b"sycl::queue q;",
    b"sycl::queue q{sycl::property::queue::in_order{}};",
    b"sycl::device d = q.get_device();",
    b"sycl::context c(q);",
    b"sycl::event e = q.submit([&](sycl::handler& h) { });",
    b"sycl::buffer b(v);",
    b"sycl::buffer<int, 2> b{v.data(), sycl::range<2>(2, 2)};",
    b"sycl::accessor a(b, h, sycl::read_only, sycl::no_init);",
    b"sycl::host_accessor a{b};",
    b"sycl::local_accessor<int> a(sycl::range<1>(4), h);",
    b"sycl::local_accessor<int, 1> a{{4}, h};",
    b"sycl::range<3> r{1, 2, 3};",
    b"sycl::range r(4);",
    b"sycl::id<1> i = j;",
    b"sycl::nd_range<1> n(r, s);",
    b"f();",
    b"x += 1; x -= 1; x *= 2; x /= 2; x %= 2; x &= 1; x |= 1; x ^= 1; x <<= 1; x >>= 1;",
    b"v[0] = x < 1 ? 2 : 3;",
    b"x++;",
    b"std::cout << x;",
    b"std::cout << x + 1 << \"text\" << std::endl;",
    b"std::cout << (x << 1) << '\\n';",
    b"while (x) { break; }",
    b"while (x) continue;",
    b"return;",
    b"return x + 1;",
    b"if (x) ;",
    b"if (x) ; else ;",
    b"if (x) if (y) a; else b;",
    b"if (x) { } else if (y) { } else { }",
    b"do x; while (y);",
    b"do { } while (y);",
    b"for (;;) ;",
    b"for (int i = 0; i < 3; ++i) { }",
    b"for (i = 0; i < 3; i += 1) ;",
    b"for (sycl::event e; ; e.wait()) ;",
    b"for (auto y : v) ;",
    b"for (const auto& y : v) { }",
    b"for (int& y : v) ;",
    b"for (const unsigned long y : v) ;",
    b"try { f(); } catch (const sycl::exception& e) { }",
    b"q.submit([&](sycl::handler& h) { h.parallel_for<K>(r, [=](sycl::id<1> i) { a[i] = 1; }); }).wait();",
    b"h.parallel_for<class K>(r, [=](auto i) { });",
    b"h.parallel_for(sycl::nd_range<1>(8, 4), s, [=](sycl::nd_item<1> i, auto& t) { });",
    b"h.single_task<K>([=] { });",
    b"h.parallel_for(r, [=, &x, y](sycl::item<2> i) { });",
    b"q.submit([&, x](sycl::handler& h) { });",
];

/// Bodies of a function that are not in the grammar.
const STATEMENTS_NOT_TAKEN: [&'static [u8]; 45] = [
    b"int;",
    b"int y",
    b"int y = ;",
    b"int y = 1 z;",
    b"int y{};",
    b"const y = 1;",
    b"auto auto y = 1;",
    b"std::vector v;",
    b"std::vector<bool, int> v;",
    b"std::vector<std::thread> t(1);",
    b"std::thread t;",
    b"std::thread t(f);",
    b"sycl::queue q();",
    b"sycl::local_accessor a(r, h);",
    b"sycl::buffer<2> b;",
    b"sycl::range<int> r;",
    b"sycl::handler h;",
    b"x = y = z;",
    b"x = 1, y = 2;",
    b"x =+= 1;",
    b"std::cout;",
    b"std::cout << ;",
    b"std::cout << x << 1 + ;",
    b"std::cout << x < 1;",
    b"std::cerr << x;",
    b"else ;",
    b"if x ;",
    b"if (x)",
    b"while () ;",
    b"do ; while (x)",
    b"for (;) ;",
    b"for (if (x) ; ; ) ;",
    b"for (auto y : f()) ;",
    b"try { }",
    b"try { } catch (...) { }",
    b"catch (const sycl::exception& e) { }",
    b"break",
    b"continue 1;",
    b"goto x;",
    b"switch (x) { }",
    b"h.parallel_for<K, L>(r);",
    b"h.parallel_for(r, [=](int i) { });",
    b"f([&] { });",
    b"}",
    b"{",
];

/// Whole sources that are in the grammar.
const SOURCES_TAKEN: [&'static [u8]; 16] = [
    b"int main() {}",
    b"void f() {} int main() { f(); }",
    b"#include <sycl/sycl.hpp>\n#include <vector>\nint main() {}",
    b"#include <iostream>\nusing namespace sycl;\nint main() { queue q; }",
    b"using namespace sycl; using namespace sycl; int main() {}",
    b"using namespace sycl; int main() { sycl::queue q; }",
    b"using namespace sycl; int main() { x.queue(); }",
    b"using namespace sycl; void f(queue& q, device& d, context& c, buffer<int, 2>& b) { q.submit([&](handler& h) {}).wait(); }",
    b"using namespace sycl; int main() { buffer<int, 2> b{r}; x = errc::invalid == plus<>{}; queue q(property::queue::in_order{}); }",
    b"const int n = 1; constexpr auto m{n * 2}; int f() { return m; } const unsigned k = 3;",
    b"const unsigned long long int n = 1; int f() {}",
    b"const std::int8_t n = 1; int f() {}",
    b"int f(int x, const unsigned long y, sycl::queue& q, std::vector<int>& v, const std::vector<std::size_t>& w) { return x; }",
    b"std::uint32_t f(std::uint16_t x) {}",
    b"int f() {} int g() {} void h() {}",
    b"const int n = ((((((((((((((((((((((((((((((((((((((((((((((((((((((((((((((1)))))))))))))))))))))))))))))))))))))))))))))))))))))))))))))); int f() {}",
];

/// Whole sources that are not in the grammar.
const SOURCES_NOT_TAKEN: [&'static [u8]; 27] = [
    b"int main() { queue q; }",
    b"",
    b"const int n = 1;",
    b"using namespace sycl;",
    b"int n = 1; int f() {}",
    b"const int n; int f() {}",
    b"const int n(1); int f() {}",
    b"const int n = 1, m = 2; int f() {}",
    b"const sycl::queue q = 1; int f() {}",
    b"int f() {};",
    b"int f()",
    b"f() {}",
    b"auto f() {}",
    b"int f(void) {}",
    b"int f(int x = 1) {}",
    b"int f(const sycl::queue& q) {}",
    b"int f(sycl::range<1>& r) {}",
    b"int f(sycl::queue q) {}",
    b"int f(std::vector<int> v) {}",
    b"int f(int& x) {}",
    b"using namespace std; int f() {}",
    b"using sycl; int f() {}",
    b"int f() {} using namespace sycl;",
    b"int f() {}\n#include <vector>\n",
    b"using namespace sycl;\n#include <vector>\nint f() {}",
    b"int main() {} 1",
    b"const int n = (((((((((((((((((((((((((((((((((((((((((((((((((((((((((((((((1))))))))))))))))))))))))))))))))))))))))))))))))))))))))))))))); int f() {}",
];
/// Refused texts, each with the line and column at which nothing fits.
const PLACES: [(&'static [u8], u32, u32); 37] = [
    (b"", 1, 1),
    (b"// nothing\n", 2, 1),
    (b"int main() {", 1, 13),
    (b"int main() { int x; \n", 2, 1),
    (b"int main();", 1, 11),
    (b"int main() { int x = 1 }", 1, 24),
    (b"int main() { int x = (1 + 2; }", 1, 28),
    (b"int main() {}\nusing namespace sycl;", 2, 1),
    (b"int main( {", 1, 11),
    (b"int main() { a + * b; }", 1, 18),
    (b"int main() { sycl::foo x; }", 1, 20),
    (b"int main() { else ; }", 1, 14),
    (b"const int n;", 1, 12),
    (b"const int n = ;", 1, 15),
    (b"const int n = 1", 1, 16),
    (b"const int n(1); int main() {}", 1, 12),
    (b"const int n = 1;", 1, 17),
    (b"int f(int) {}", 1, 10),
    (b"int f(int x,) {}", 1, 13),
    (b"int f(int x int y) {}", 1, 13),
    (b"int f(auto x) {}", 1, 7),
    (b"int f(int std::size_t) {}", 1, 11),
    (b"int f(sycl::queue q) {}", 1, 19),
    (b"int f(sycl::event& e) {}", 1, 13),
    (b"int f(sycl::buffer& b) {}", 1, 19),
    (b"int f(const sycl::queue& q) {}", 1, 13),
    (b"int f(std::vector<int> v) {}", 1, 24),
    (b"int f(std::string& s) {}", 1, 12),
    (b"int f() {}\n#include <vector>\n", 2, 1),
    (b"using namespace std;\nint main() {}", 1, 17),
    (b"int main() { if (x { } }", 1, 20),
    (b"int main() { for (int i = 0; i < n) ; }", 1, 35),
    (b"int main() { try { } }", 1, 22),
    (b"int main() { x = y = z; }", 1, 20),
    (b"int main() {} x", 1, 15),
    (b"float f() {}", 1, 1),
    (b"int 3() {}", 1, 5),
];

#[test]
fn places_of_refusals(rt: HostRuntime) -> Result<(), Fail> {
    for (number, (text, line, column)) in PLACES.iter().enumerate() {
        let got = outcome(rt, text);
        assert_eq!(rt; (number, got), (number, Answer::RefusedAt(*line, *column)));
    }
    Ok(())
}

#[test]
fn values(rt: HostRuntime) -> Result<(), Fail> {
    let before = b"int main() { x = ";
    let taken = first_wrong(rt, true, before, &VALUES_TAKEN, b"; }")?;
    assert_eq!(rt; taken, None);
    let refused = first_wrong(rt, false, before, &VALUES_NOT_TAKEN, b"; }")?;
    assert_eq!(rt; refused, None);
    Ok(())
}

#[test]
fn statements(rt: HostRuntime) -> Result<(), Fail> {
    let before = b"int main() { ";
    let taken = first_wrong(rt, true, before, &STATEMENTS_TAKEN, b" }")?;
    assert_eq!(rt; taken, None);
    let refused = first_wrong(rt, false, before, &STATEMENTS_NOT_TAKEN, b" }")?;
    assert_eq!(rt; refused, None);
    Ok(())
}

#[test]
fn sources(rt: HostRuntime) -> Result<(), Fail> {
    let taken = first_wrong(rt, true, b"", &SOURCES_TAKEN, b"")?;
    assert_eq!(rt; taken, None);
    let refused = first_wrong(rt, false, b"", &SOURCES_NOT_TAKEN, b"")?;
    assert_eq!(rt; refused, None);
    Ok(())
}

/// The place behind what is read, or the line and the column of what doesn't fit.
type End = Result<usize, (u32, u32)>;

fn end_behind<A: Drop>(found: Result<(A, usize), FrontStop>) -> End {
    match found {
        Ok((_, end)) => Ok(end),
        Err(FrontStop::Refused(refusal)) => Err((refusal.spot.line, refusal.spot.column)),
        Err(FrontStop::Memory) => Err((0, 0)),
    }
}

/// Expressions and blocks by themselves, from a token on.
const PARTS: [(bool, &'static [u8], usize, End); 11] = [
    (false, b"x = a + b * c;", 2, Ok(7)),
    (false, b"a = b;", 0, Ok(1)),
    (false, b"f(a,\n  b c);", 0, Err((2, 5))),
    (false, b"a +", 0, Err((1, 4))),
    (false, b"a;", 9, Err((1, 3))),
    (
        false,
        b"(((((((((((((((((((((((((((((((((((((((((((((((((((((((((((((((1)))))))))))))))))))))))))))))))))))))))))))))))))))))))))))))));",
        0,
        Ok(127),
    ),
    (
        false,
        b"((((((((((((((((((((((((((((((((((((((((((((((((((((((((((((((((1))))))))))))))))))))))))))))))))))))))))))))))))))))))))))))))));",
        0,
        Err((1, 65)),
    ),
    (true, b"f() { a; }", 3, Ok(7)),
    (true, b"{ a; ", 0, Err((1, 5))),
    (true, b"{ if (a) { b; } c else d; }", 0, Err((1, 19))),
    (true, b"a", 0, Err((1, 1))),
];

#[test]
fn parts(rt: HostRuntime) -> Result<(), Fail> {
    for (is_block, text, at, wanted) in PARTS {
        if text.len() > 4096 {
            return Err(Fail::new("too long"));
        }
        let toks = tokens(rt.alloc(), text)?;
        let got = if is_block {
            end_behind(block(rt.alloc(), toks.as_slice(), at))
        } else {
            end_behind(expr(rt.alloc(), toks.as_slice(), at))
        };
        assert_eq!(rt; got, wanted);
    }
    Ok(())
}
