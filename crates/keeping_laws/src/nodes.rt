//! The constants of every module that the code holds fit: the types of its numbers say so, one by one.
ghost use Rattle.std.specs.Prelude.{All};
ghost use Rattle.keeping_laws.specs.Keeping.{IsByte};
ghost use Rattle.keeping_laws.specs.Modules.{NodeFits, NodesFit};

use ir_tree::nodes::ConstantNode;
use ir_tree::whole::Module;

/// The bytes of a text.
fn text_fits(bytes: &[u8])
    ensures { All IsByte bytes.now }
{}

/// The node of a constant.
fn node_fits(node: &ConstantNode)
    ensures { NodeFits node.now }
{
    match node {
        ConstantNode::Integer(n) => {
            n.bits();
        }
        ConstantNode::Text(bytes) => text_fits(bytes.as_slice()),
        _ => {}
    }
}

/// All constants of a module.
pub fn nodes_fit(module: &Module)
    ensures { NodesFit «module».now }
{
    let names = module.names();
    names.is_table();
    for number in 0..names.constant_count() {
        if let Some(node) = names.constant_node(number as u32) {
            node_fits(node);
        }
    }
}
