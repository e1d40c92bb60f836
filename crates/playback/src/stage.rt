// How far the playing of a journal has come.
use rules::Settings;

#[derive(Clone, Copy)]
pub enum Stage {
    // Nothing was played yet.
    First,
    // The unit is set up so, and the next record has this place.
    Playing(Settings, u64),
    // The first record was refused.
    Stopped,
}
