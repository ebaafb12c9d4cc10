//! What a command answers.
/// What came of a call.
#[derive(Drop)]
pub struct Answer {
    /// The status that was answered.
    pub status: u8,
    /// The text that was written.
    pub text: Vec<u8>,
    /// Whether all else that the call leaves is as it should be.
    pub is_sound: bool,
}
