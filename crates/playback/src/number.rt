// The number of a replica, from 1, and its place in the arrays, from 0.
ghost use Rattle.std.specs.Prelude.{◌≡◌, suc, ◌≤◌};
ghost use Rattle.limits.specs.Limits.{max_replicas};

#[derive(Clone, Copy)]
pub(crate) struct Number {
    pub(crate) value: u8,
    ghost at_least_1: { 1 ≤ value },
    ghost at_most_7: { value ≤ max_replicas },
}

impl Number {
    pub(crate) fn index(self) -> usize
        ensures { suc result ≡ self.value }
    {
        self.value as usize - 1
    }
}
