ghost use Rattle.std.specs.Prelude.{◌≡◌};
ghost use Rattle.std.specs.Option.{option_copied};
ghost use Rattle.exchange_core.specs.HeldMessages.{message_in, whole_in};

use evaluation::{Frame, Message};

/// What is known of a task: its last evaluation as a whole, or that evaluation's message alone.
#[derive(Drop)]
pub enum Last {
    Whole(Frame),
    Told(Message),
}

impl Last {
    /// The message.
    pub fn message(&self) -> &Message
        ensures { result.now ≡ message_in self.now }
    {
        match self {
            Last::Whole(frame) => frame.message(),
            Last::Told(message) => message,
        }
    }

    /// The evaluation, where it is known as a whole.
    pub fn whole(&self) -> Option<&Frame>
        ensures { option_copied result ≡ whole_in self.now }
    {
        match self {
            Last::Whole(frame) => Some(frame),
            Last::Told(_) => None,
        }
    }
}
