// The first values that a file gives.
ghost use Rattle.std.specs.Prelude.{◌≡◌, ◌≤◌, take};
ghost use Rattle.rules.specs.Limits.{greatest_size};

use rules::group::Group;

// The values of a file: the first n of the array. An array with n beside it, since nothing is allocated; and n is no `Size` of the rules, which is made there alone.
#[derive(Clone, Copy)]
pub(crate) struct Values {
    pub n: u32,
    pub all: [u32; Group::GREATEST],
    ghost few: { n ≤ greatest_size },
}

impl Values {
    pub(crate) fn as_slice(&self) -> &[u32]
        ensures { result.now ≡ take self.now.n self.now.all }
    {
        &self.all[..self.n as usize]
    }
}
