// Laws of unfolding, each the contract of a function that does nothing.

ghost use Rattle.std.specs.Prelude.{◌≡◌, ◌⊎◌, ℕ, List, ◌∷◌, Some};
ghost use Rattle.fore_base.specs.Lists.{IsIn, Every, IsDistinct};
ghost use Rattle.fore_base.specs.declared.shape.Shape.{Shape};
ghost use Rattle.fore_base.specs.declared.store.Store.{Store};
ghost use Rattle.ta_core.specs.Auto.{Automaton};
ghost use Rattle.ta_core.specs.declared.auto.Rule.{Rule};
ghost use Rattle.fa_core.specs.Boxes.{Boxes};
ghost use Rattle.fa_core.specs.Choices.{all_numbers, bares};
ghost use Rattle.fa_core.specs.Dressed.{Nodes, cells, facts};
ghost use Rattle.fa_core.specs.Filled.{ChoiceFilled, IsFilled};
ghost use Rattle.fa_core.specs.Member.{OfForest, Stands, inside_of};
ghost use Rattle.fa_core.specs.Rearranged.{Rearranged};
ghost use Rattle.fa_core.specs.declared.boxes.BoxDef.{BoxDef};
ghost use Rattle.fa_core.specs.declared.forest.Forest.{Forest};
ghost use Rattle.fa_core.specs.declared.forest.Target.{Target};
ghost use Rattle.fa_unfold.specs.Opens.{Item, Opens, items};
ghost use Rattle.fa_unfold.specs.Sites.{IsHookAt, IsLinkAt, IsOver};
ghost use Rattle.fa_unfold.specs.Unfolded.{UnfoldsFrom, UnfoldsInto};
ghost use Rattle.fa_unfold.specs.Unfolding.{AreHookTops, AreLinkTops, Tops, hook_unfoldings, link_unfoldings};

/// Where a box edge is opened, the facts stay, and so does each other cell and slot. The cells may be regrouped before.
pub fn opening_keeps_facts()
    ensures facts { (x : Item) (d e : Nodes) → Opens x d e → Rearranged (facts d) (facts e) }
    ensures items { (x : Item) (d e : Nodes) → Opens x d e → (y : Item) → IsIn y (items d)
        → (y ≡ x) ⊎ IsIn y (items e) }
    ensures regrouped { (x : Item) (d k e : Nodes) → Rearranged (cells d) (cells k) → Opens x k e → Opens x d e }
{}

/// Forests that have together the dressed forests of the first one, each with a box edge opened, have its members.
pub fn unfolding_keeps_members()
    ensures whole { (hs : List Shape) (T : List BoxDef) (F : Forest) (root slot : ℕ) (Gs : List Forest) (s : Store)
        → UnfoldsInto T F root slot Gs → Stands hs T F s → (G : Forest) × IsIn G Gs × Stands hs T G s }
    ensures each { (hs : List Shape) (T : List BoxDef) (F G : Forest) (root slot : ℕ) (s : Store)
        → UnfoldsFrom T F root slot G → Stands hs T G s → Stands hs T F s }
{}

/// The forests in which a Link, whose end is a leaf, is replaced by the inside of its box have together the dressed
/// forests of the first one with that Link opened.
pub fn links_unfold()
    ensures each { (t : Boxes) (F : Forest) (i p b : ℕ) (y : Target) (input output : Automaton)
        (inner : List Automaton) (tops : Tops) → IsOver t F → IsLinkAt F i p b y
        → inside_of t.defs b ≡ Some (input ∷ (output ∷ inner)) → AreLinkTops F i y input output tops
        → Every (UnfoldsFrom t.defs F i p) (link_unfoldings t.face.boxes F i p y input output inner tops) }
    ensures whole { (t : Boxes) (F : Forest) (i p b : ℕ) (y : Target) (input output : Automaton)
        (inner : List Automaton) (tops : Tops) → IsOver t F → IsLinkAt F i p b y
        → inside_of t.defs b ≡ Some (input ∷ (output ∷ inner)) → AreLinkTops F i y input output tops
        → UnfoldsInto t.defs F i p (link_unfoldings t.face.boxes F i p y input output inner tops) }
{}

/// So have the forests in which a Hook is replaced.
pub fn hooks_unfold()
    ensures each { (t : Boxes) (F : Forest) (i p b : ℕ) (input : Automaton) (inner : List Automaton)
        (ins : List Rule) → IsOver t F → IsHookAt F i p b → inside_of t.defs b ≡ Some (input ∷ inner)
        → AreHookTops F i input ins
        → Every (UnfoldsFrom t.defs F i p) (hook_unfoldings t.face.boxes F i p input inner ins) }
    ensures whole { (t : Boxes) (F : Forest) (i p b : ℕ) (input : Automaton) (inner : List Automaton)
        (ins : List Rule) → IsOver t F → IsHookAt F i p b → inside_of t.defs b ≡ Some (input ∷ inner)
        → AreHookTops F i input ins
        → UnfoldsInto t.defs F i p (hook_unfoldings t.face.boxes F i p input inner ins) }
{}

/// Their trees are filled, over the table: where no two cells of a dressed forest are one, each tree has a cell at its
/// top, each target names a root that is there, and each field of each cell is given once.
pub fn unfolded_trees_are_filled()
    ensures links { (t : Boxes) (F : Forest) (i p b : ℕ) (y : Target) (input output : Automaton)
        (inner : List Automaton) (tops : Tops) → IsOver t F → IsLinkAt F i p b y
        → inside_of t.defs b ≡ Some (input ∷ (output ∷ inner)) → AreLinkTops F i y input output tops
        → (G : Forest) → IsIn G (link_unfoldings t.face.boxes F i p y input output inner tops) → (e : Nodes)
        → OfForest t.defs G e → IsDistinct (all_numbers e) → ChoiceFilled t.face G (bares e) }
    ensures hooks { (t : Boxes) (F : Forest) (i p b : ℕ) (input : Automaton) (inner : List Automaton)
        (ins : List Rule) → IsOver t F → IsHookAt F i p b → inside_of t.defs b ≡ Some (input ∷ inner)
        → AreHookTops F i input ins → (G : Forest)
        → IsIn G (hook_unfoldings t.face.boxes F i p input inner ins) → (e : Nodes)
        → OfForest t.defs G e → IsDistinct (all_numbers e) → ChoiceFilled t.face G (bares e) }
{}

/// Those forests are filled: so each can be cut by signatures into sound forests.
pub fn unfolded_forests_are_filled()
    ensures links { (t : Boxes) (F : Forest) (i p b : ℕ) (y : Target) (input output : Automaton)
        (inner : List Automaton) (tops : Tops) → IsOver t F → IsLinkAt F i p b y
        → inside_of t.defs b ≡ Some (input ∷ (output ∷ inner)) → AreLinkTops F i y input output tops
        → Every (IsFilled t.face) (link_unfoldings t.face.boxes F i p y input output inner tops) }
    ensures hooks { (t : Boxes) (F : Forest) (i p b : ℕ) (input : Automaton) (inner : List Automaton)
        (ins : List Rule) → IsOver t F → IsHookAt F i p b → inside_of t.defs b ≡ Some (input ∷ inner)
        → AreHookTops F i input ins
        → Every (IsFilled t.face) (hook_unfoldings t.face.boxes F i p input inner ins) }
{}
