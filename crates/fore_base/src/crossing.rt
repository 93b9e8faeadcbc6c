// Values that hold only data can be shared between threads and moved to another.

use crate::boxed::Boxed;
use crate::fault::Fault;
use crate::list::List;
use crate::names::Names;
use crate::place::Place;
use crate::shape::Shapes;
use crate::store::Store;
use crate::text::Text;

/// A value of this type may be shared between threads, and moved to another: where this call is accepted, that is
/// proved.
pub fn crosses<T: Send + Sync>(_value: &T) {}

/// A list crosses threads where its items do.
pub fn list_crosses<T: Send + Sync>(list: &List<T>) {
    crosses(list)
}

/// A box crosses threads where what it holds does.
pub fn boxed_crosses<T: Send + Sync>(boxed: &Boxed<T>) {
    crosses(boxed)
}

/// Stores cross threads, and with them values, data and cells.
pub fn store_crosses(store: &Store) {
    crosses(store)
}

/// Structs cross threads, and with them texts.
pub fn shapes_cross(shapes: &Shapes, text: &Text) {
    crosses(shapes);
    crosses(text)
}

/// Faults and places cross threads.
pub fn fault_crosses(fault: &Fault, place: &Place) {
    crosses(fault);
    crosses(place)
}

/// Names cross threads.
pub fn names_cross(names: &Names) {
    crosses(names)
}
