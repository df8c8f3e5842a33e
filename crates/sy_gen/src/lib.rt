//! The source that mode `selftest` compiles and runs.
//!
//! A seed draws a list of command groups, each of which computes one of four buffers from another
//! on one of two queues. The source makes the queues and buffers, submits the groups in their
//! order, and prints the sum of each buffer.
#![tactic(auto)]

ghost use Rattle.std.specs.Prelude.{◌≡◌, ◌+◌, ◌*◌, ◌<◌, ◌≤◌, ◌++◌, length, decimal, IfOk, vec_len, vec_capacity};
ghost use Rattle.sy_gen.specs.Groups.{name_of, line_of};
ghost use Rattle.sy_gen.specs.Text.{opening, closing, source_text};

mod draws;

use draws::Draws;
use itoa::Buffer;
use std::alloc::{AllocError, Global};

// The kernel that a group runs.
#[derive(Clone, Copy)]
enum Function {
    Add,
    Mul,
    Flip,
}

impl Function {
    fn name(self) -> &'static [u8]
        ensures { result.now ≡ name_of self }
    {
        match self {
            Function::Add => b"add",
            Function::Mul => b"mul",
            Function::Flip => b"flip",
        }
    }
}

// One command group: its kernel, the queue, the buffers that it computes and reads, and the number
// that it adds.
#[derive(Clone, Copy)]
struct Group {
    function: Function,
    queue: u32,
    target: u32,
    other: u32,
    number: u32,
}

const OPENING: &[u8] = b"#include <sycl/sycl.hpp>
#include <iostream>
using namespace sycl;
void add(queue& q, buffer<unsigned>& x, buffer<unsigned>& y, unsigned k) {
  q.submit([&](handler& h) {
    accessor s{y, h, read_only};
    accessor d{x, h, read_write};
    h.parallel_for(range<1>{64}, [=](id<1> i) { d[i] = d[i] + s[63 - i] + k; });
  });
}
void mul(queue& q, buffer<unsigned>& x, buffer<unsigned>& y, unsigned k) {
  q.submit([&](handler& h) {
    accessor s{y, h, read_only};
    accessor d{x, h, write_only, no_init};
    h.parallel_for(range<1>{64}, [=](id<1> i) { d[i] = s[i] * 3u + k; });
  });
}
void flip(queue& q, buffer<unsigned>& x, buffer<unsigned>& y, unsigned k) {
  q.submit([&](handler& h) {
    accessor s{y, h, read_only};
    accessor d{x, h, write_only};
    local_accessor<unsigned> l{range<1>{8}, h};
    h.parallel_for(nd_range<1>{range<1>{64}, range<1>{8}}, [=](nd_item<1> it) {
      size_t g = it.get_global_id(0);
      size_t j = it.get_local_id(0);
      l[j] = s[g];
      group_barrier(it.get_group());
      d[g] = l[7 - j] + k;
    });
  });
}
unsigned total(buffer<unsigned>& b) {
  host_accessor a{b, read_only};
  unsigned t = 0;
  for (int i = 0; i < 64; ++i) t += a[i];
  return t;
}
int main() {
  device d;
  auto s = d.create_sub_devices<info::partition_property::partition_equally>(4);
  context c0{s[0]};
  context c1{s[1]};
  queue q0{c0, s[0]};
  queue q1{c1, s[1]};
  buffer<unsigned> b0{range<1>{64}};
  buffer<unsigned> b1{range<1>{64}};
  buffer<unsigned> b2{range<1>{64}};
  buffer<unsigned> b3{range<1>{64}};
";

const CLOSING: &[u8] =
    b"  std::cout << total(b0) << ' ' << total(b1) << ' ' << total(b2) << ' ' << total(b3) << std::endl;
}
";

// The most bytes that a group's line has.
const LINE_ROOM: usize = 25;

fn opening_text() -> &'static [u8]
    ensures text { result.now ≡ opening }
    ensures len { length result.now ≡ 1546 }
{
    OPENING
}

fn closing_text() -> &'static [u8]
    ensures text { result.now ≡ closing }
    ensures len { length result.now ≡ 101 }
{
    CLOSING
}

// Appends a piece for which there is room.
fn push(text: &mut Vec<u8>, piece: &[u8])
    requires { vec_len text.old + length piece.now ≤ vec_capacity text.old }
    ensures items { text.new.items ≡ text.old.items ++ piece.now }
    ensures len { vec_len text.new ≡ vec_len text.old + length piece.now }
    ensures capacity { vec_capacity text.old ≤ vec_capacity text.new }
{
    text.extend_from_slice(piece).unwrap();
}

fn push_number(text: &mut Vec<u8>, number: u32)
    requires { vec_len text.old + length (decimal number) ≤ vec_capacity text.old }
    ensures items { text.new.items ≡ text.old.items ++ decimal number }
    ensures len { vec_len text.new ≡ vec_len text.old + length (decimal number) }
    ensures capacity { vec_capacity text.old ≤ vec_capacity text.new }
{
    push(text, Buffer::new().format(number).as_bytes());
}

fn push_line(text: &mut Vec<u8>, group: &Group)
    requires { vec_len text.old + length (line_of group.now) ≤ vec_capacity text.old }
    ensures items { text.new.items ≡ text.old.items ++ line_of group.now }
    ensures len { vec_len text.new ≡ vec_len text.old + length (line_of group.now) }
    ensures capacity { vec_capacity text.old ≤ vec_capacity text.new }
{
    push(text, b"  ");
    push(text, group.function.name());
    push(text, b"(q");
    push_number(text, group.queue);
    push(text, b", b");
    push_number(text, group.target);
    push(text, b", b");
    push_number(text, group.other);
    push(text, b", ");
    push_number(text, group.number);
    push(text, b"u);\n");
}

/// The source for a seed, with so many command groups. Its last line ends with a line feed.
pub fn source_of(alloc: Global, seed: u32, groups: u32) -> Result<Vec<u8>, AllocError>
    requires seed { seed < 65536 }
    requires some { 1 ≤ groups }
    requires most { groups ≤ 20000 }
    ensures { IfOk result (λ text. text.items ≡ source_text seed groups) }
{
    let (opening, closing) = (opening_text(), closing_text());
    let room = opening.len() + LINE_ROOM * groups as usize + closing.len();
    let mut text = Vec::with_capacity(alloc, room)?;
    push(&mut text, opening);
    let mut draws = Draws::new(seed);
    for _group in 0..groups {
        push_line(&mut text, &draws.next_group());
    }
    push(&mut text, closing);
    Ok(text)
}

#[cfg(test)]
mod tests;
