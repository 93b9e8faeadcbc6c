// Choices of signatures are choices of trees.

ghost use Rattle.std.specs.Prelude.{◌≡◌, ◌↔◌, ◌<◌, ℕ, List, length};
ghost use Rattle.fore_base.specs.Lists.{IsIn, Every};
ghost use Rattle.ta_core.specs.Auto.{Automaton};
ghost use Rattle.ta_core.specs.Language.{InLanguage};
ghost use Rattle.ta_core.specs.declared.tree.Tree.{Tree};
ghost use Rattle.fa_core.specs.Canonical.{RefersTo};
ghost use Rattle.fa_core.specs.Filled.{HasSome};
ghost use Rattle.fa_core.specs.declared.faces.BoxFace.{BoxFace};
ghost use Rattle.fa_core.specs.declared.signature.Signature.{Signature};
ghost use Rattle.fa_back.specs.Insides.{ReachesAll, AlwaysReaches, NeverReaches};
ghost use Rattle.fa_back.specs.Reached.{AllNameBelow};
ghost use Rattle.fa_box_rules.specs.Signs.{AreSigns};
ghost use Rattle.fa_reach.specs.Choices.{AllReach, AlwaysLeads, NeverLeads, HasSign};

/// What is reached for every choice of one signature of each list is reached for every choice of one tree of each
/// component, where the lists are the signatures of the trees of the components.
pub fn choices_are_of_signatures()
    ensures all { (bs : List BoxFace) (autos : List Automaton) (lists : List (List Signature)) (i : ℕ)
        → AreSigns bs autos lists → (AllReach lists i ↔ ReachesAll bs autos i) }
    ensures always { (bs : List BoxFace) (autos : List Automaton) (lists : List (List Signature)) (i j : ℕ)
        → AreSigns bs autos lists → (AlwaysLeads lists i j ↔ AlwaysReaches bs autos i j) }
    ensures never { (bs : List BoxFace) (autos : List Automaton) (lists : List (List Signature)) (i j : ℕ)
        → AreSigns bs autos lists → (NeverLeads lists i j ↔ NeverReaches bs autos i j) }
{}

/// Lists of the signatures of the trees of components are as `reach_all` and `lead` ask: as many as there are
/// components, each with a signature where the component has a tree, and naming components where their trees do.
pub fn signatures_fit()
    ensures long { (bs : List BoxFace) (autos : List Automaton) (lists : List (List Signature))
        → AreSigns bs autos lists → length lists ≡ length autos }
    ensures full { (bs : List BoxFace) (autos : List Automaton) (lists : List (List Signature))
        → AreSigns bs autos lists → Every HasSome autos → Every HasSign lists }
    ensures within { (bs : List BoxFace) (n : ℕ) (autos : List Automaton) (lists : List (List Signature))
        → AreSigns bs autos lists
        → ((a : Automaton) (t : Tree) (k : ℕ) → IsIn a autos → InLanguage a t → RefersTo t k → k < n)
        → Every (AllNameBelow n) lists }
{}
