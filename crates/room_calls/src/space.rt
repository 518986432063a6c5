// What the calls that tell a room answer: how long the output and the working space have to be at least.
#[derive(Clone, Copy)]
pub struct Space {
    pub out: usize,
    pub work: usize,
}
