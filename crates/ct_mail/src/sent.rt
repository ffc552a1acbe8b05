//! A message that was sent, and what became of it.
use ct_frame::frame::Frame;
use std::marker::Model;

/// What became of a message that was sent.
#[derive(Clone, Copy, Debug, Drop, PartialEq, Eq)]
pub enum Fate {
    Waiting,
    Delivered,
    Dropped,
}

/// A message that was sent, and what became of it.
pub(crate) struct Sent {
    pub(crate) frame: Frame,
    pub(crate) fate: Fate,
}

impl Drop for Sent {
    /// All that it holds is let go.
    fn drop(self) {
        let Sent { frame: _, fate: _ } = self;
    }
}

impl Model for Sent {
    ghost use Rattle.ct_rules_cluster.specs.Cluster as cluster;
    ghost use Rattle.ct_mail.specs.Mail.{fate_of};

    ghost Value = { cluster.Sent };

    ghost view = { λ s. record { frame = s.frame; fate = fate_of s.fate } };
}

impl Fate {
    ghost use Rattle.std.specs.Prelude.{◌≡◌};
    ghost use Rattle.ct_rules_cluster.specs.Cluster.{is_waiting_fate, is_delivered_fate};
    ghost use Rattle.ct_mail.specs.Mail.{fate_of};

    /// Does the message wait?
    #[tactic(auto, unfolding(ct_rules_cluster::specs::Cluster::is_waiting_fate))]
    pub fn is_waiting(self) -> bool
        ensures { result ≡ is_waiting_fate (fate_of self) }
    {
        match self {
            Fate::Waiting => true,
            Fate::Delivered | Fate::Dropped => false,
        }
    }

    /// Was the message delivered?
    #[tactic(auto, unfolding(ct_rules_cluster::specs::Cluster::is_delivered_fate))]
    pub fn is_delivered(self) -> bool
        ensures { result ≡ is_delivered_fate (fate_of self) }
    {
        match self {
            Fate::Delivered => true,
            Fate::Waiting | Fate::Dropped => false,
        }
    }
}

impl Sent {
    ghost use Rattle.std.specs.Prelude.{◌≡◌};
    ghost use Rattle.ct_rules_cluster.specs.Cluster.{is_waiting_fate, is_delivered_fate};
    ghost use Rattle.ct_mail.specs.Mail.{fate_of, posted};

    /// A message that was just sent.
    pub(crate) fn posted(frame: Frame) -> Sent
        ensures { result ≡ posted frame }
    {
        Sent {
            frame,
            fate: Fate::Waiting,
        }
    }

    /// The frame of the message.
    pub(crate) fn frame(&self) -> &Frame
        ensures { result.now ≡ self.now.frame }
    {
        &self.frame
    }

    /// Does the message wait?
    pub(crate) fn is_waiting(&self) -> bool
        ensures { result ≡ is_waiting_fate self.now.fate }
    {
        self.fate.is_waiting()
    }

    /// Was the message delivered?
    pub(crate) fn is_delivered(&self) -> bool
        ensures { result ≡ is_delivered_fate self.now.fate }
    {
        self.fate.is_delivered()
    }

    /// The message has another fate.
    pub(crate) fn end(&mut self, fate: Fate)
        ensures { self.new ≡ record self.old { fate = fate_of fate } }
    {
        self.fate = fate;
    }
}
