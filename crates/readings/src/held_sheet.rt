// A held sheet from the numbers of a line. Whatever the writer may not look at is filled with sevens, so that a look would show: groups past their count (as tied
// ones, on the new zero), commands past theirs (of a group that may not be there), levels past n, and the target beside a count, a store or a change of zero.
use super::numbers::Given;
use permutation::answers::Permutation;
use ranking::zero::Zero;
use sheet::held::{Action, Command, Entry, Group, Groups, Sheet};

const UNSEEN_GROUP: Group = Group {
    n: 7,
    levels: [7; 20],
};

const UNSEEN_TARGET: Permutation = Permutation {
    n: 7,
    cells: [7; 20],
};

const UNSEEN_ENTRY: Entry = Entry {
    command: Command {
        group: 7,
        action: Action::Count(7),
    },
    target: UNSEEN_TARGET,
};

impl Given<'_> {
    // n, and as many levels as a group has room for.
    fn group(&mut self) -> Group {
        let n = self.length();
        let mut levels = UNSEEN_GROUP.levels;
        for level in levels.iter_mut().take(n) {
            *level = self.capped(u16::MAX);
        }
        Group { n, levels }
    }

    fn groups(&mut self) -> Groups {
        let count = self.length();
        let mut list = [UNSEEN_GROUP; 64];
        for group in list.iter_mut().take(count) {
            *group = self.group();
        }
        Groups { count, list }
    }

    // n, how many names stand in the row, and these.
    fn target(&mut self) -> Permutation {
        let n = self.length();
        let count = self.length();
        let mut cells = [0; 20];
        for cell in cells.iter_mut().take(count) {
            *cell = self.capped(u8::MAX);
        }
        Permutation { n, cells }
    }

    // The kind, the group, and what the kind has. The zeros past the line are counts by 0.
    fn entry(&mut self) -> Entry {
        let kind = self.number();
        let group = self.capped(u8::MAX);
        let (action, target) = match kind {
            2 => (Action::Rewrite, self.target()),
            3 => (Action::Store(self.number(), self.number()), UNSEEN_TARGET),
            4 => (Action::ChangeZero, UNSEEN_TARGET),
            _ => (Action::Count(self.capped(u32::MAX)), UNSEEN_TARGET),
        };
        Entry {
            command: Command { group, action },
            target,
        }
    }

    // A number for each group: 1 is new. Any other is old here, since a held sheet has no zero that is neither.
    fn zeros(&mut self, count: usize) -> [Zero; 64] {
        let mut zeros = [Zero::New; 64];
        for zero in zeros.iter_mut().take(count) {
            *zero = match self.number() {
                1 => Zero::New,
                _ => Zero::Old,
            };
        }
        zeros
    }

    // How many groups, and these; how many commands, and these; and the zeros of the groups.
    pub fn sheet(&mut self) -> Sheet {
        let groups = self.groups();
        let count = self.length();
        let mut entries = [UNSEEN_ENTRY; 1000];
        for entry in entries.iter_mut().take(count) {
            *entry = self.entry();
        }
        let zeros = self.zeros(groups.count);
        Sheet {
            groups,
            zeros,
            count,
            entries,
        }
    }
}
