//! The laws of the chip, over whole runs: their statements stand in specs/Laws.antt and their proofs in proofs/.
//!
//! What it promises: what a chip keeps of a session is enough; where READ, FSTRD and WRITE roll over, the remainder of the sum is
//! kept, and no answer alters by it; a fitted chip stays fitted; and two deselected fitted chips of one sheet, whatever was sent to
//! them before, have equal records exactly when no list of calls that can be sent tells them apart. The calls of the chip name
//! these laws, and the exchange of a chip stepped by bytes the second.
#![tactic(auto)]
