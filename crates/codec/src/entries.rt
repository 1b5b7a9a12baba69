// Entries of a ledger, states and rules as records.
ghost use Rattle.std.specs.Prelude.{◌≡◌, ◌+◌, ◌≤◌, length};
ghost use Rattle.holdings.specs.Append.{over};
ghost use Rattle.codec_laws.specs.Entries.{entry_code, state_code, rule_code};
ghost use Rattle.codec_laws.proofs.Laws.{entry_exact, state_exact, rule_exact};

use crate::{GuardRecord, Record};
use holdings::Entry;
use table::{Rule, State};

impl Record for Entry {
    ghost code = { entry_code };

    ghost laws = { entry_exact };

    fn width() -> usize {
        6
    }

    fn read(bytes: &[u8]) -> Entry {
        Entry {
            states: u16::from_be_bytes([bytes[0], bytes[1]]),
            rules: u16::from_be_bytes([bytes[2], bytes[3]]),
            outputs: u16::from_be_bytes([bytes[4], bytes[5]]),
        }
    }

    fn write(self, out: &mut [u8]) {
        let [s1, s0] = self.states.to_be_bytes();
        let [r1, r0] = self.rules.to_be_bytes();
        let [o1, o0] = self.outputs.to_be_bytes();
        out.copy_from_slice(&[s1, s0, r1, r0, o1, o0]);
    }

    fn wrong(_bytes: &[u8]) -> Option<usize> {
        None
    }
}

impl Record for State {
    ghost code = { state_code };

    ghost laws = { state_exact };

    fn width() -> usize {
        3
    }

    fn read(bytes: &[u8]) -> State {
        State {
            mark: bytes[0],
            finals: u16::from_be_bytes([bytes[1], bytes[2]]),
        }
    }

    fn write(self, out: &mut [u8]) {
        let [f1, f0] = self.finals.to_be_bytes();
        out.copy_from_slice(&[self.mark, f1, f0]);
    }

    fn wrong(_bytes: &[u8]) -> Option<usize> {
        None
    }
}

impl<G: GuardRecord> Record for Rule<G> {
    ghost code = { rule_code G.GuardRecord.code };

    ghost laws = { rule_exact G.GuardRecord.code G.GuardRecord.laws G.GuardRecord.wide G.GuardRecord.free };

    fn width() -> usize {
        14
    }

    fn read(bytes: &[u8]) -> Rule<G> {
        Rule {
            state: u16::from_be_bytes([bytes[0], bytes[1]]),
            next: u16::from_be_bytes([bytes[2], bytes[3]]),
            outputs: u16::from_be_bytes([bytes[4], bytes[5]]),
            guard: G::read(&bytes[6..]),
        }
    }

    fn write(self, out: &mut [u8]) {
        let [s1, s0] = self.state.to_be_bytes();
        let [n1, n0] = self.next.to_be_bytes();
        let [o1, o0] = self.outputs.to_be_bytes();
        out[0..6].copy_from_slice(&[s1, s0, n1, n0, o1, o0]);
        self.guard.write(&mut out[6..]);
    }

    fn wrong(_bytes: &[u8]) -> Option<usize> {
        None
    }
}
