//! The words of the library that stand in a source as names.

ghost use Rattle.std.specs.Prelude.{◌≡◌, codes, drop, if◌then◌else◌, Some};
ghost use Rattle.std.specs.Str.{bytes_eq};
ghost use Rattle.sy_rules.specs.Members.{is_about, names_a_kernel, are_absent, has_its_words, row_with};
ghost use Rattle.sy_rules.specs.Words.{is_information, looked_up, error_names, error_named, member_names, member_named};

use sqlite_items::Boxed;
use sy_fits::{arguments_if, both};
use sy_rules::Row;
use sy_tree::TemplateArgument;
use sy_typed::{ErrorName, Member};

/// The text is the word.
fn is_word(word: &[u8], text: &[u8]) -> bool
    ensures { result ≡ bytes_eq word.now text.now }
{
    word == text
}

fn error_or(
    word: &[u8],
    text: &[u8],
    name: ErrorName,
    others: Option<ErrorName>,
) -> Option<ErrorName>
    ensures { result ≡ (if bytes_eq word.now text.now then Some name else others) }
{
    if is_word(word, text) {
        Some(name)
    } else {
        others
    }
}

fn member_or(word: &[u8], text: &[u8], member: Member, others: Option<Member>) -> Option<Member>
    ensures { result ≡ (if bytes_eq word.now text.now then Some member else others) }
{
    if is_word(word, text) {
        Some(member)
    } else {
        others
    }
}

/// The name after `errc`. (SYCL 2020, "Error codes")
pub fn error_named(text: &[u8]) -> Option<ErrorName>
    ensures { result ≡ error_named text.now }
{
    let fifth = error_or(
        b"memory_allocation",
        text,
        ErrorName::MemoryAllocation,
        None,
    );
    let fourth = error_or(b"invalid", text, ErrorName::Invalid, fifth);
    let third = error_or(b"kernel_argument", text, ErrorName::KernelArgument, fourth);
    let second = error_or(b"nd_range", text, ErrorName::NdRange, third);
    error_or(b"runtime", text, ErrorName::Runtime, second)
}

fn group_word(text: &[u8]) -> Option<Member>
    ensures { result ≡ looked_up (drop 24 member_names) text.now }
{
    let seventh = member_or(b"combine", text, Member::Combine, None);
    let sixth = member_or(
        b"get_group_linear_id",
        text,
        Member::GetGroupLinearId,
        seventh,
    );
    let fifth = member_or(
        b"get_local_linear_id",
        text,
        Member::GetLocalLinearId,
        sixth,
    );
    let fourth = member_or(
        b"get_global_linear_id",
        text,
        Member::GetGlobalLinearId,
        fifth,
    );
    let third = member_or(b"get_group", text, Member::GetGroup, fourth);
    let second = member_or(b"get_group_range", text, Member::GetGroupRange, third);
    member_or(b"get_local_range", text, Member::GetLocalRange, second)
}

fn index_word(text: &[u8]) -> Option<Member>
    ensures { result ≡ looked_up (drop 16 member_names) text.now }
{
    let others = group_word(text);
    let eighth = member_or(b"get_global_range", text, Member::GetGlobalRange, others);
    let seventh = member_or(b"get_local_id", text, Member::GetLocalId, eighth);
    let sixth = member_or(b"get_global_id", text, Member::GetGlobalId, seventh);
    let fifth = member_or(b"get_linear_id", text, Member::GetLinearId, sixth);
    let fourth = member_or(b"get_id", text, Member::GetId, fifth);
    let third = member_or(b"get", text, Member::Get, fourth);
    let second = member_or(b"depends_on", text, Member::DependsOn, third);
    member_or(b"copy", text, Member::Copy, second)
}

fn handler_word(text: &[u8]) -> Option<Member>
    ensures { result ≡ looked_up (drop 8 member_names) text.now }
{
    let others = index_word(text);
    let eighth = member_or(b"fill", text, Member::Fill, others);
    let seventh = member_or(b"parallel_for", text, Member::ParallelFor, eighth);
    let sixth = member_or(b"single_task", text, Member::SingleTask, seventh);
    let fifth = member_or(b"code", text, Member::Code, sixth);
    let fourth = member_or(b"join", text, Member::Join, fifth);
    let third = member_or(b"emplace_back", text, Member::EmplaceBack, fourth);
    let second = member_or(b"data", text, Member::Data, third);
    member_or(b"push_back", text, Member::PushBack, second)
}

/// The member of this name, if the library has one.
pub fn member_named(text: &[u8]) -> Option<Member>
    ensures { result ≡ member_named text.now }
{
    let others = handler_word(text);
    let eighth = member_or(b"size", text, Member::Size, others);
    let seventh = member_or(b"get_range", text, Member::GetRange, eighth);
    let sixth = member_or(b"get_info", text, Member::MaxComputeUnits, seventh);
    let fifth = member_or(b"create_sub_devices", text, Member::CreateSubDevices, sixth);
    let fourth = member_or(b"get_device", text, Member::GetDevice, fifth);
    let third = member_or(b"wait_and_throw", text, Member::WaitAndThrow, fourth);
    let second = member_or(b"wait", text, Member::Wait, third);
    member_or(b"submit", text, Member::Submit, second)
}

// ---- the words in `< >` behind a member

/// `info::topic::word`
fn is_information(topic: &[u8], word: &[u8], t: &TemplateArgument) -> bool
    ensures { result ≡ is_information topic.now word.now t.now }
{
    match t {
        TemplateArgument::Kernel(_, _) => false,
        TemplateArgument::Information(_, a, b) => {
            is_word(topic, a.text.items()) && is_word(word, b.text.items())
        }
    }
}

/// `info::device::max_compute_units`
fn asks_for_units(t: &Option<Boxed<TemplateArgument>>) -> bool
    ensures { result ≡ is_about (codes "device") (codes "max_compute_units") t.now }
{
    match t {
        None => false,
        Some(t) => is_information(b"device", b"max_compute_units", t.get()),
    }
}

/// `info::partition_property::partition_equally`
fn asks_for_equal_parts(t: &Option<Boxed<TemplateArgument>>) -> bool
    ensures { result ≡ is_about (codes "partition_property") (codes "partition_equally") t.now }
{
    match t {
        None => false,
        Some(t) => is_information(b"partition_property", b"partition_equally", t.get()),
    }
}

fn is_kernel_name(t: &TemplateArgument) -> bool
    ensures { result ≡ names_a_kernel (Some t.now) }
{
    match t {
        TemplateArgument::Kernel(_, _) => true,
        TemplateArgument::Information(_, _, _) => false,
    }
}

fn names_a_kernel(t: &Option<Boxed<TemplateArgument>>) -> bool
    ensures { result ≡ names_a_kernel t.now }
{
    match t {
        None => true,
        Some(t) => is_kernel_name(t.get()),
    }
}

/// The member has the words in `< >` that it takes.
pub fn has_its_words(member: Member, t: &Option<Boxed<TemplateArgument>>) -> bool
    ensures { result ≡ has_its_words member t.now }
{
    match member {
        Member::MaxComputeUnits => asks_for_units(t),
        Member::CreateSubDevices => asks_for_equal_parts(t),
        Member::SingleTask => names_a_kernel(t),
        Member::ParallelFor => names_a_kernel(t),
        _ => t.is_none(),
    }
}

/// The row of a member with these words.
pub fn row_with(
    t: &Option<Boxed<TemplateArgument>>,
    member: Member,
    found: Option<Row>,
) -> Option<Row>
    ensures { result ≡ row_with t.now member found }
{
    match found {
        None => None,
        Some(row) => Some(Row {
            fit: both(arguments_if(has_its_words(member, t)), row.fit),
            gives: row.gives,
        }),
    }
}
