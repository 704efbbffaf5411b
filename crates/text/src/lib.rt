// Text in lent bytes: decimals read at a place, and bytes and decimals put in place. Knows nothing of rules or of schedules.
// Each public function is total, and its contract says the one answer for any bytes and any place.
#![tactic(auto)]

pub mod look;
pub mod number;
pub mod put;
