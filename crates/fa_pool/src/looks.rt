// The keys by which forests are found that look alike.

ghost use Rattle.std.specs.Prelude.{◌≡◌};
ghost use Rattle.fa_pool.specs.Looks.{with_target, with_targets, with_looks};

use crate::keys::{mixed, with_datums};
use fa_core::forest::Target;
use fore_base::store::Datum;

/// The key with what a forest looks like: its targets, its data, and how many roots it has.
pub fn with_looks(key: u64, vars: &[Target], data_vars: &[Datum], roots: usize) -> u64
    ensures { result ≡ with_looks key vars.now data_vars.now roots }
{
    let key = with_datums(with_targets(key, vars), data_vars);
    mixed(key, roots as u64)
}

fn with_targets(key: u64, targets: &[Target]) -> u64
    ensures { result ≡ with_targets key targets.now }
{
    let mut mix = key;
    for target in targets {
        mix = with_target(mix, *target);
    }
    mix
}

fn with_target(key: u64, target: Target) -> u64
    ensures { result ≡ with_target key target }
{
    match target {
        Target::Null => mixed(key, 0),
        Target::Uninit => mixed(key, 1),
        Target::Dangling => mixed(key, 2),
        Target::At(root) => mixed(mixed(key, 3), root as u64),
    }
}
