// A setting as it is loaded.
use meaning::BODIES;

// A setting's numbers, body by body, and how many records each of its bodies has.
#[derive(Clone, Copy)]
pub struct LoadedSetting<'a> {
    pub counts: [usize; BODIES],
    pub numbers: &'a [u16],
}
