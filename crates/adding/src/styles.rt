// What a line is: a batch line or an ordinary one, with quotes forced or not.

#[derive(Clone, Copy, Debug, PartialEq, Eq)]
pub struct Style {
    pub batch: bool,
    pub force: bool,
}
