// Values that hold only data can be shared between threads and moved to another.

use crate::fault::LexFault;
use crate::token::Token;
use fore_base::crossing::crosses;

/// Tokens cross threads, and with them their kinds.
pub fn token_crosses(token: &Token) {
    crosses(token);
    crosses(&token.kind)
}

/// Refusals cross threads.
pub fn fault_crosses(fault: &LexFault) {
    crosses(fault)
}
