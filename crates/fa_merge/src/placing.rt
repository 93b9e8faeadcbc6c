// Other leaves in the place of references.

ghost use Rattle.std.specs.Prelude.{◌≡◌, ℕ, map, IfOk};
ghost use Rattle.ta_core.specs.declared.auto.Rule.{Rule};
ghost use Rattle.fa_core.specs.declared.forest.Target.{Target};
ghost use Rattle.fa_core.specs.Member.{leaf_symbol};
ghost use Rattle.fa_core.specs.Placed.{placed_leaf, placed_symbol, placed_rule, placed_auto};

use fa_core::forest::Target;
use fore_base::list::{Copies, List};
use fore_base::memory::Mem;
use std::alloc::Global;
use ta_core::auto::{Auto, Rule};
use ta_core::symbol::Symbol;

/// A leaf for each root.
pub trait Leaves {
    ghost leaf_of: { Self → ℕ → Target };

    /// The leaf that stands in the place of references to the root. Err is want of memory, also where numbers of roots
    /// do not fit 32 bits.
    fn leaf(&self, root: u32) -> Mem<Target>
        ensures { IfOk result (λ leaf. leaf ≡ leaf_of self.now root) };
}

/// The automata with these leaves in the place of references. Err is want of memory, also where numbers of roots do not
/// fit 32 bits.
pub fn place_autos<L: Leaves>(alloc: Global, autos: &[Auto], leaves: &L) -> Mem<List<Auto>>
    ensures { IfOk result (λ made. made ≡ map (placed_auto (L.leaf_of leaves.now)) autos.now) }
{
    let mut made = List::new(alloc);
    for auto in autos {
        let auto = place_auto(alloc, auto, leaves)?;
        made.push(auto)?;
    }
    Ok(made)
}

/// The automaton with these leaves in the place of references. Err is want of memory, also where numbers of roots do
/// not fit 32 bits.
pub fn place_auto<L: Leaves>(alloc: Global, auto: &Auto, leaves: &L) -> Mem<Auto>
    ensures { IfOk result (λ made. made ≡ placed_auto (L.leaf_of leaves.now) auto.now) }
{
    let roots = auto.roots.copy(alloc)?;
    let rules = place_rules(alloc, auto.rules.as_slice(), leaves)?;
    Ok(Auto {
        states: auto.states,
        roots,
        rules,
    })
}

/// The rules with these leaves in the place of references. Err is want of memory, also where numbers of roots do not
/// fit 32 bits.
pub fn place_rules<L: Leaves>(alloc: Global, rules: &[Rule], leaves: &L) -> Mem<List<Rule>>
    ensures { IfOk result (λ made. made ≡ map (placed_rule (L.leaf_of leaves.now)) rules.now) }
{
    let mut made = List::new(alloc);
    for rule in rules {
        let rule = place_rule(alloc, rule, leaves)?;
        made.push(rule)?;
    }
    Ok(made)
}

fn place_rule<L: Leaves>(alloc: Global, rule: &Rule, leaves: &L) -> Mem<Rule>
    ensures { IfOk result (λ made. made ≡ placed_rule (L.leaf_of leaves.now) rule.now) }
{
    Ok(Rule {
        state: rule.state,
        symbol: place_symbol(alloc, &rule.symbol, leaves)?,
        children: rule.children.copy(alloc)?,
    })
}

fn place_symbol<L: Leaves>(alloc: Global, symbol: &Symbol, leaves: &L) -> Mem<Symbol>
    ensures { IfOk result (λ made. made ≡ placed_symbol (L.leaf_of leaves.now) symbol.now) }
{
    match symbol {
        Symbol::Ref(root) => Ok(symbol_of(leaves.leaf(*root)?)),
        _ => symbol.copy(alloc),
    }
}

/// The symbol of the leaf.
pub fn symbol_of(leaf: Target) -> Symbol
    ensures { result ≡ leaf_symbol leaf }
{
    match leaf {
        Target::Null => Symbol::Null,
        Target::Uninit => Symbol::Uninit,
        Target::Dangling => Symbol::Dangling,
        Target::At(root) => Symbol::Ref(root),
    }
}

/// The targets with these leaves in the place of roots. Err is want of memory, also where numbers of roots do not fit
/// 32 bits.
pub fn place_targets<L: Leaves>(alloc: Global, targets: &[Target], leaves: &L) -> Mem<List<Target>>
    ensures { IfOk result (λ made. made ≡ map (placed_leaf (L.leaf_of leaves.now)) targets.now) }
{
    let mut made = List::new(alloc);
    for target in targets {
        made.push(place_target(*target, leaves)?)?;
    }
    Ok(made)
}

fn place_target<L: Leaves>(target: Target, leaves: &L) -> Mem<Target>
    ensures { IfOk result (λ made. made ≡ placed_leaf (L.leaf_of leaves.now) target) }
{
    match target {
        Target::At(root) => leaves.leaf(root),
        _ => Ok(target),
    }
}
