//! All items of a file, from the first to the last. (C++17, [basic.link])

ghost use Rattle.std.specs.Prelude.{◌≡◌, OnOk, map};
ghost use Rattle.sy_closures.specs.Bodies.{BlocksBelow};
ghost use Rattle.sy_items.specs.Files.{HasBegun, kept_of, with_piece, with_pieces};
ghost use Rattle.sy_items.specs.Looks.{LooksAtConstants};
ghost use Rattle.sy_looks.specs.Looked.{Looked};
ghost use Rattle.sy_rules.specs.Outcome.{in_turn};
ghost use Rattle.sy_rules.specs.Units.{constant_by, one_item};
ghost use Rattle.sy_rules.specs.Walk.{declarator_of};
ghost use Rattle.sy_tree.specs.declared.tree.FileItem.TheVariants as item;

use crate::file::{File, begin_anew, keep_constant, keep_function};
use crate::functions::function;
use std::alloc::AllocError;
use sy_closures::Bodies;
use sy_looks::Walk;
use sy_tree::{Block, Constant, FileItem, Function};
use sy_typed::{TypedBlock, TypedConstant};

/// The items of a file, over the walks of constants and bodies.
#[derive(Clone, Copy)]
pub struct FileItems<B, C> {
    pub bodies: Bodies<B>,
    pub constant: C,
}

impl<
    B: Fn(&mut Walk, usize, &Block) -> Result<TypedBlock, AllocError>,
    C: Fn(&mut Walk, &Constant) -> Result<TypedConstant, AllocError>,
> FileItems<B, C> {
    fn sub_constant(&self, w: &mut Walk, c: &Constant) -> Result<TypedConstant, AllocError>
        requires { LooksAtConstants (C.pre self.now.constant) (C.post self.now.constant) }
        ensures { Looked (constant_by c.now (declarator_of c.now.declarator)) w.old result w.new }
    {
        (self.constant)(w, c)
    }

    fn constant_item(&self, w: &mut Walk, file: &mut File, c: &Constant) -> Result<(), AllocError>
        requires constants { LooksAtConstants (C.pre self.now.constant) (C.post self.now.constant) }
        requires begun { HasBegun w.old }
        ensures walk { OnOk result (w.new ≡ record w.old { names = (one_item (item.Constant c.now) w.old.names).names }) }
        ensures kept { OnOk result (kept_of file.new ≡ with_piece (one_item (item.Constant c.now) w.old.names).what (one_item (item.Constant c.now) w.old.names).found (kept_of file.old)) }
    {
        let y = self.sub_constant(w, c)?;
        let own = begin_anew(w);
        keep_constant(file, y, own)?;
        Ok(())
    }

    fn function_item(&self, w: &mut Walk, file: &mut File, f: &Function) -> Result<(), AllocError>
        requires blocks { BlocksBelow self.now.bodies.depth (B.pre self.now.bodies.block) (B.post self.now.bodies.block) }
        requires begun { HasBegun w.old }
        ensures walk { OnOk result (w.new ≡ record w.old { names = (one_item (item.Function f.now) w.old.names).names }) }
        ensures kept { OnOk result (kept_of file.new ≡ with_piece (one_item (item.Function f.now) w.old.names).what (one_item (item.Function f.now) w.old.names).found (kept_of file.old)) }
    {
        let y = function(&self.bodies, w, f)?;
        let own = begin_anew(w);
        keep_function(file, y, own)?;
        Ok(())
    }

    fn item(&self, w: &mut Walk, file: &mut File, i: &FileItem) -> Result<(), AllocError>
        requires blocks { BlocksBelow self.now.bodies.depth (B.pre self.now.bodies.block) (B.post self.now.bodies.block) }
        requires constants { LooksAtConstants (C.pre self.now.constant) (C.post self.now.constant) }
        requires begun { HasBegun w.old }
        ensures walk { OnOk result (w.new ≡ record w.old { names = (one_item i.now w.old.names).names }) }
        ensures kept { OnOk result (kept_of file.new ≡ with_piece (one_item i.now w.old.names).what (one_item i.now w.old.names).found (kept_of file.old)) }
    {
        match i {
            FileItem::Constant(c) => {
                self.constant_item(w, file, c)?;
                Ok(())
            }
            FileItem::Function(f) => {
                self.function_item(w, file, f)?;
                Ok(())
            }
        }
    }

    /// Adds all items of a file to it.
    pub fn all(&self, w: &mut Walk, file: &mut File, items: &[FileItem]) -> Result<(), AllocError>
        requires blocks { BlocksBelow self.now.bodies.depth (B.pre self.now.bodies.block) (B.post self.now.bodies.block) }
        requires constants { LooksAtConstants (C.pre self.now.constant) (C.post self.now.constant) }
        requires begun { HasBegun w.old }
        ensures { OnOk result (kept_of file.new ≡ with_pieces (in_turn (map one_item items.now) w.old.names) (kept_of file.old)) }
    {
        for i in items {
            self.item(w, file, i)?;
        }
        Ok(())
    }
}
