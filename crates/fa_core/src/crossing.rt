// Forests, boxes and signatures hold only data: they can be shared between threads and moved to another.

use crate::boxes::BoxDef;
use crate::faces::Face;
use crate::folds::FoldStep;
use crate::forest::Forest;
use crate::signature::Signature;
use crate::table::BoxTable;
use fore_base::crossing::crosses;

/// Forests cross threads, and with them targets.
pub fn forest_crosses(forest: &Forest) {
    crosses(forest)
}

/// Boxes and folds cross threads, and with them faces.
pub fn boxes_cross(def: &BoxDef, face: &Face, step: &FoldStep) {
    crosses(def);
    crosses(face);
    crosses(step)
}

/// Signatures cross threads, and with them marks.
pub fn signature_crosses(signature: &Signature) {
    crosses(signature)
}

/// Tables of boxes cross threads.
pub fn table_crosses(table: &BoxTable) {
    crosses(table)
}
