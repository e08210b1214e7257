//! The memory in which a program starts.
ghost use Rattle.std.specs.Prelude.{◌≡◌, IfOk};
ghost use Rattle.ir_code.specs.Fixed.{AreFixed};
ghost use Rattle.ir_bytes.specs.Initial.{GlobalsFit, first_picture};

use crate::initial::initial_bytes;
use ir_code::fixed::Constants;
use ir_tree::whole::Module;
use mem_image::image::Image;
use mem_image::object::Kind;
use pv_base::place::AllocSite;
use pv_base::want::Memory;
use std::alloc::Global;

/// The memory in which a program starts: each global is an object under its number, with its first bytes, and the next name is
/// their count. It takes time and memory linear in the bytes and in the initialisers as they are written out.
pub fn first_image(alloc: Global, tree: &Module, constants: &Constants) -> Result<Image, Memory>
    requires fixed { AreFixed tree.now constants.now }
    requires fit { GlobalsFit tree.now }
    ensures { IfOk result (λ image. image ≡ first_picture tree.now) }
{
    let globals = tree.globals();
    let mut image = Image::new(alloc);
    for number in 0..globals.len() {
        let global = globals[number];
        let bytes = initial_bytes(alloc, tree, constants, global.of, global.init)?;
        let site = AllocSite::Global(number as u32);
        image.push(site, Kind::Global, global.constant, bytes)?;
    }
    Ok(image)
}
