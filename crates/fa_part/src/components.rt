// The components of a part.

ghost use Rattle.std.specs.Prelude.{◌<◌, ◌^◌, length, IfOk};
ghost use Rattle.fore_base.specs.Lists.{Every};
ghost use Rattle.ta_core.specs.Single.{HasOneTop};
ghost use Rattle.fa_core.specs.Filled.{HasSome};
ghost use Rattle.fa_core.specs.Folding.{AreInnerAutos, ArePortAutos, IsLanguageOf, moved_tree, port_tree};
ghost use Rattle.fa_core.specs.Folding.{position};
ghost use Rattle.fa_core.specs.References.{AllBelow};
ghost use Rattle.fa_part.specs.Ports.{IsPortOf, ports_of, shapes_of};

use crate::making::{moved, ported};
use crate::ports::Port;
use fa_core::forest::Forest;
use fa_sound::component;
use fore_base::list::List;
use fore_base::memory::Mem;
use std::alloc::Global;
use ta_core::auto::Auto;

/// The component of an inner root of a part: the trees of this automaton, where each reference is the place of its root
/// in the order of the part's roots. Err is want of memory.
fn inner_component(alloc: Global, auto: &Auto, order: &[u32]) -> Mem<Auto>
    requires { length order.now < 2 ^ 32 }
    ensures { IfOk result (IsLanguageOf (moved_tree (position order.now)) auto.now) }
{
    let made = moved(alloc, auto, order)?;
    Ok(made)
}

/// The component of a port of a part: the trees of this automaton with the port's fields alone, without data, and with
/// references likewise. Err is want of memory.
fn port_component(alloc: Global, auto: &Auto, port: &Port, order: &[u32]) -> Mem<Auto>
    requires top { HasOneTop auto.now }
    requires some { HasSome auto.now }
    requires order { length order.now < 2 ^ 32 }
    ensures { IfOk result
        (IsLanguageOf (port_tree (position order.now) port.now.shape port.now.fields) auto.now) }
{
    auto.known();
    let made = ported(alloc, auto, port.shape, port.fields.as_slice(), order)?;
    Ok(made)
}

/// The components of the ports. Err is want of memory.
pub fn port_components(
    alloc: Global,
    forest: &Forest,
    ports: &[Port],
    order: &[u32],
) -> Mem<List<Auto>>
    requires ports { Every (IsPortOf forest.now.autos) ports.now }
    requires full { Every HasSome forest.now.autos }
    requires order { length order.now < 2 ^ 32 }
    ensures { IfOk result
        (ArePortAutos (position order.now) forest.now.autos (ports_of ports.now) (shapes_of ports.now)) }
{
    let mut made = List::new(alloc);
    for port in ports {
        made.push(port_component(alloc, component(forest, port.root), port, order)?)?;
    }
    Ok(made)
}

/// The components of the inner roots. Err is want of memory.
pub fn inner_components(
    alloc: Global,
    forest: &Forest,
    inner: &[u32],
    order: &[u32],
) -> Mem<List<Auto>>
    requires inner { AllBelow (length forest.now.autos) inner.now }
    requires order { length order.now < 2 ^ 32 }
    ensures { IfOk result (AreInnerAutos (position order.now) forest.now.autos inner.now) }
{
    let mut made = List::new(alloc);
    for root in inner {
        made.push(inner_component(alloc, component(forest, *root), order)?)?;
    }
    Ok(made)
}
