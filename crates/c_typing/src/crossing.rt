// Values that hold only data can be shared between threads and moved to another.

use crate::fault::TypeFault;
use crate::meaning::{
    Enumerator, Family, FieldUse, FunctionDef, Kind, Meaning, Member, Spot, StructDef, Want,
};
use fore_base::crossing::crosses;

/// Faults cross threads.
pub fn fault_crosses(fault: &TypeFault) {
    crosses(fault)
}

/// What a variable holds crosses threads.
pub fn kind_crosses(kind: &Kind) {
    crosses(kind)
}

/// Fields cross threads.
pub fn member_crosses(member: &Member) {
    crosses(member)
}

/// Structs cross threads.
pub fn struct_crosses(def: &StructDef) {
    crosses(def)
}

/// Enumerators cross threads.
pub fn enumerator_crosses(value: &Enumerator) {
    crosses(value)
}

/// Functions cross threads.
pub fn function_crosses(def: &FunctionDef) {
    crosses(def)
}

/// Uses of fields cross threads.
pub fn use_crosses(field: &FieldUse) {
    crosses(field)
}

/// What operands are crosses threads.
pub fn meaning_crosses(meaning: &Meaning) {
    crosses(meaning)
}

/// What is defined crosses threads.
pub fn family_crosses(family: &Family) {
    crosses(family)
}

/// What is wanted crosses threads.
pub fn want_crosses(want: &Want) {
    crosses(want)
}

/// Where calls stand crosses threads.
pub fn spot_crosses(spot: &Spot) {
    crosses(spot)
}
