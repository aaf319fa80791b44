// The domains of the items while options are crossed out, as bits of words. The support counts and the lists stay parameters
// beside them: the functions below a step change only some of these, and with all in one struct each would have to say which
// stay.
#[derive(Drop)]
pub struct Domains {
    // The options that are not crossed out.
    pub kept: [u32; 32],
    // These, and those whose crossing-out waits to be spread.
    pub seen: [u32; 32],
    // The items that wait to be revised.
    pub marked: u32,
}
