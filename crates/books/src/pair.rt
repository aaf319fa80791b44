// The numbering of pairs of items; an inner file, whose functions ask that the items are there.
ghost use Rattle.std.specs.Prelude.{◌≡◌, ◌<◌, ◌≤◌};
ghost use Rattle.meaning.specs.Pairs.{pair, start};

const STARTS: [usize; 32] = [
    0, 0, 1, 3, 6, 10, 15, 21, 28, 36, 45, 55, 66, 78, 91, 105, 120, 136, 153, 171, 190, 210, 231,
    253, 276, 300, 325, 351, 378, 406, 435, 465,
];

// The first pair number of item j.
fn start_of(j: usize) -> usize
    requires { j < 32 }
    ensures value { result ≡ start j }
    ensures bound { result ≤ 465 }
{
    STARTS[j]
}

// The number of the pair i < j.
pub fn pair_number(i: usize, j: usize) -> usize
    requires lower { i < j }
    requires within { j < 32 }
    ensures value { result ≡ pair i j }
    ensures bound { result < 496 }
{
    start_of(j) + i
}
