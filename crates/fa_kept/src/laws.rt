// Laws of memos, each the contract of a function that does nothing.

ghost use Rattle.std.specs.Prelude.{List};
ghost use Rattle.ta_core.specs.Auto.{Automaton};
ghost use Rattle.fa_pool.specs.Pools.{IsGrown};
ghost use Rattle.fa_kept.specs.Memos.{Answer, Agrees};

/// A memo that agrees with a pool agrees with it when it has grown, as when a forest is kept.
pub fn grown_agrees()
    ensures { (memo : List Answer) (pool autos more : List Automaton) → IsGrown pool autos more → Agrees memo pool
        → Agrees memo more }
{}
