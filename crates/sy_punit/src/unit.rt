//! Whole sources.

ghost use Rattle.std.specs.Prelude.{◌≡◌};
ghost use Rattle.std.specs.List.{list_any};
ghost use Rattle.sy_cursor.specs.Reads.{Reads};
ghost use Rattle.sy_punit.specs.Reader as spec;

use crate::items::file_item;
use sqlite_items::Items;
use sy_cursor::{Stop, Tokens};
use sy_lex::Row;
use sy_note::Spot;
use sy_tree::{FileItem, Unit};

fn include_lines(tokens: &mut Tokens<'_>) -> Result<Items<Spot>, Stop>
    ensures { Reads (spec.include_lines tokens.old.rest.now) result tokens.new.rest.now }
{
    let mut lines = Items::new(tokens.alloc);
    for _turn in 0..tokens.count_left() {
        if !tokens.sees_row(Row::Include) {
            return Ok(lines);
        }
        let line = tokens.advance()?;
        lines.push(line)?;
    }
    Ok(lines)
}

#[tactic(auto, unfolding(crate::specs::Reader::using_line))]
fn using_line(tokens: &mut Tokens<'_>) -> Result<Spot, Stop>
    ensures { Reads (spec.using_line tokens.old.rest.now) result tokens.new.rest.now }
{
    let spot = tokens.expect(Row::Reserved, b"using")?;
    tokens.expect(Row::Reserved, b"namespace")?;
    tokens.expect(Row::Ident, b"sycl")?;
    tokens.expect(Row::Mark, b";")?;
    Ok(spot)
}

fn using_lines(tokens: &mut Tokens<'_>) -> Result<Items<Spot>, Stop>
    ensures { Reads (spec.using_lines tokens.old.rest.now) result tokens.new.rest.now }
{
    let mut lines = Items::new(tokens.alloc);
    for _turn in 0..tokens.count_left() {
        if !tokens.sees(Row::Reserved, b"using") {
            return Ok(lines);
        }
        let line = using_line(tokens)?;
        lines.push(line)?;
    }
    Ok(lines)
}

/// Whether tokens are left.
fn some_left(tokens: &Tokens<'_>) -> bool
    ensures { result ≡ spec.some_left tokens.now.rest.now }
{
    match tokens.rest {
        [] => false,
        [_, ..] => true,
    }
}

fn file_items(tokens: &mut Tokens<'_>) -> Result<Items<FileItem>, Stop>
    ensures { Reads (spec.file_items tokens.old.rest.now) result tokens.new.rest.now }
{
    let mut items = Items::new(tokens.alloc);
    for _turn in 0..tokens.count_left() {
        if !some_left(tokens) {
            return Ok(items);
        }
        let item = file_item(tokens)?;
        items.push(item)?;
    }
    Ok(items)
}

fn is_function(item: &FileItem) -> bool
    ensures { result ≡ spec.is_function item.now }
{
    match item {
        FileItem::Constant(_) => false,
        FileItem::Function(_) => true,
    }
}

fn has_function(items: &[FileItem]) -> bool
    ensures { result ≡ list_any spec.is_function items.now }
{
    items.iter().any(|item| is_function(item))
}

/// A whole source, up to its end.
#[tactic(auto, unfolding(crate::specs::Reader::read_unit))]
pub fn read_unit(tokens: &mut Tokens<'_>) -> Result<Unit, Stop>
    ensures { Reads (spec.read_unit tokens.old.rest.now) result tokens.new.rest.now }
{
    let includes = include_lines(tokens)?;
    let usings = using_lines(tokens)?;
    let items = file_items(tokens)?;
    if has_function(items.as_slice()) && !some_left(tokens) {
        Ok(Unit {
            includes,
            usings,
            items,
        })
    } else {
        Err(Stop::Grammar)
    }
}
