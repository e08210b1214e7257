//! Numbers, names and sites in a report.
ghost use Rattle.std.specs.Prelude.{◌≡◌, ◌++◌, OnOk, decimal, slice_get};
ghost use Rattle.std.specs.Fmt.{signed_decimal};
ghost use Rattle.ir_tree.specs.Written.{shown_module};
ghost use Rattle.run_report.specs.Report.{function_text, global_text, site_name};

use ir_printer::print::put_global_name;
use ir_tree::whole::Module;
use itoa::Buffer;
use pv_base::bytes::Bytes;
use pv_base::place::Site;
use pv_base::want::Memory;

pub(crate) fn put_number(to: &mut Bytes, n: u64) -> Result<(), Memory>
    ensures { OnOk result (to.new ≡ to.old ++ decimal n) }
{
    let mut buffer = Buffer::new();
    to.append(buffer.format(n).as_bytes())
}

pub(crate) fn put_signed(to: &mut Bytes, n: i64) -> Result<(), Memory>
    ensures { OnOk result (to.new ≡ to.old ++ signed_decimal n) }
{
    let mut buffer = Buffer::new();
    to.append(buffer.format(n).as_bytes())
}

/// `@g`
#[tactic(auto, using(crate::proofs::Written::global_is, crate::proofs::Written::global_none))]
pub(crate) fn put_global(to: &mut Bytes, tree: &Module, global: u32) -> Result<(), Memory>
    ensures { OnOk result (to.new ≡ to.old ++ global_text (slice_get (shown_module tree.now).globals global)) }
{
    match tree.globals().get(global as usize) {
        Some(found) => put_global_name(to, tree, found.name),
        None => Ok(()),
    }
}

#[tactic(auto, using(crate::proofs::Written::function_is, crate::proofs::Written::function_none))]
fn put_function(to: &mut Bytes, tree: &Module, function: u32) -> Result<(), Memory>
    ensures { OnOk result (to.new ≡ to.old ++ function_text (slice_get (shown_module tree.now).functions function)) }
{
    match tree.functions().get(function as usize) {
        Some(found) => put_global_name(to, tree, found.name),
        None => Ok(()),
    }
}

/// `@f:12`
pub(crate) fn put_site(to: &mut Bytes, tree: &Module, site: Site) -> Result<(), Memory>
    ensures { OnOk result (to.new ≡ to.old ++ site_name (shown_module tree.now) site) }
{
    put_function(to, tree, site.function)?;
    to.append(b":")?;
    put_number(to, u64::from(site.place))
}
