// What is in memory here, and the faults of what is outside, can be shared between threads and moved to another.

use crate::mem_shelf::MemShelf;
use crate::mem_sink::MemSink;
use crate::shelf::ShelfFault;
use crate::sink::SinkFault;
use fore_base::crossing::crosses;

/// The shelf and the sink in memory cross threads.
pub fn memory_crosses(shelf: &MemShelf, sink: &MemSink) {
    crosses(shelf);
    crosses(sink)
}

/// The faults of reading and writing cross threads.
pub fn outside_faults_cross(shelf_fault: &ShelfFault, sink_fault: &SinkFault) {
    crosses(shelf_fault);
    crosses(sink_fault)
}
