//! A message and what it holds.
ghost use Rattle.std.specs.Prelude.{◌≡◌, [], ◌∷◌, Some, length, slice_get};
ghost use Rattle.mp_names.specs.declared.names.Name.{Name};
ghost use Rattle.mp_names.specs.declared.names.Name.TheVariants.{Ctrl as CtrlName, Packet as PacketName, Row as RowName};
ghost use Rattle.mp_names.specs.Names.{In};
ghost use Rattle.mp_names.specs.Outlines.{IsOwed};
ghost use Rattle.mp_machine.specs.Messages.{IsMessage};
ghost use Rattle.mp_outline.specs.JobOutline.{outline_of};
ghost use Rattle.mp_msg.specs.Bodies.{IsContentOf, names_of_body};
ghost use Rattle.mp_msg.specs.Bundles.{HasOneSender, IsBundle, names_in};
ghost use Rattle.mp_msg.specs.Contents.{IsControlOf, IsPacketOf, IsRowOf};
ghost use Rattle.mp_model.specs.Tables.{table_of};

use crate::{BoxedState, Bundle, Names};
use mp_mailbox::Named;
use mp_model::{Fields, Naming, Query, Time};
use mp_names::{Control, Name, Tag};
use std::marker::{Model, PhantomData};

/// What a message holds.
#[derive(Drop)]
pub enum Body<C: Drop> {
    /// The control record that stands at this index of the job's list, for worker `to`.
    Ctrl {
        index: u32,
        to: u32,
        control: Control,
    },
    /// Records of a stage.
    Recs(Bundle),
    /// What a bin of a stage has just before it moves at this time.
    Packet {
        stage: u32,
        bin: u32,
        time: Time,
        state: BoxedState<C>,
    },
    /// An answer row: its time, what tells it from the others of that time, and its fields.
    Row {
        time: Time,
        tag: Tag,
        fields: Fields,
    },
}

/// A message of the job J of the query Q. Contracts see its names.
pub struct Msg<Q: Query, J: Naming> {
    body: Body<Q::Cell>,
    of: PhantomData<(Q, J)>,
}

// By hand, so that crates above call it and don't write out the drop of each field.
impl<Q: Query, J: Naming> Drop for Msg<Q, J> {
    fn drop(self) {
        let Msg { body: _, of: _ } = self;
    }
}

impl<Q: Query, J: Naming> Model for Msg<Q, J> {
    ghost use Rattle.std.specs.Prelude.{List};
    ghost use Rattle.mp_names.specs.declared.names.Name.{Name};
    ghost use Rattle.mp_msg.specs.Bodies.{IsContentOf, names_of_body};
    ghost use Rattle.mp_model.specs.Tables.{table_of};

    ghost Value = { List Name };

    ghost view = { λ m. names_of_body m.body };

    ghost invariant = { λ m. IsContentOf (table_of Q.facts J.job) J.job m.body };
}

impl<Q: Query, J: Naming> Named for Msg<Q, J> {
    ghost use Rattle.mp_outline.specs.JobOutline.{outline_of};
    ghost use Rattle.mp_msg.specs.Bundles.{receiver_of, sender_of};
    ghost use Rattle.mp_model.specs.Tables.{table_of};

    type Name = Name;

    ghost names = { λ m. m };

    ghost from = { λ m. sender_of (outline_of (table_of Q.facts J.job) J.job) m };

    ghost to = { λ m. receiver_of (outline_of (table_of Q.facts J.job) J.job) m };
}

impl<Q: Query, J: Naming> Msg<Q, J> {
    /// A message that takes the control record at an index of the job's list to a worker.
    pub fn control(index: u32, to: u32, control: Control) -> Msg<Q, J>
        requires { IsControlOf J.job index to control }
        ensures { result ≡ CtrlName index to ∷ [] }
    {
        Msg {
            body: Body::Ctrl { index, to, control },
            of: PhantomData,
        }
    }

    /// A message that takes what a bin has just before a move to its new owner.
    pub fn packet(stage: u32, bin: u32, time: Time, state: BoxedState<Q::Cell>) -> Msg<Q, J>
        requires { IsPacketOf (table_of Q.facts J.job) J.job stage bin time state }
        ensures { result ≡ PacketName stage bin time ∷ [] }
    {
        Msg {
            body: Body::Packet {
                stage,
                bin,
                time,
                state,
            },
            of: PhantomData,
        }
    }

    /// A message that holds records of the job.
    pub fn records(bundle: Bundle) -> Msg<Q, J>
        requires { IsBundle (table_of Q.facts J.job) J.job bundle }
        ensures { result ≡ names_in bundle }
    {
        Msg {
            body: Body::Recs(bundle),
            of: PhantomData,
        }
    }

    /// A message that holds the answer row of this time and tag.
    pub fn row(time: Time, tag: Tag, fields: Fields) -> Msg<Q, J>
        requires { IsRowOf (table_of Q.facts J.job) J.job time tag fields }
        ensures { result ≡ RowName time tag ∷ [] }
    {
        Msg {
            body: Body::Row { time, tag, fields },
            of: PhantomData,
        }
    }

    /// What the message is called in the workers' logs. Its names are those of one message, which one worker sends, and
    /// each has to be sent.
    pub fn names(&self) -> Names
        ensures first { slice_get self.now 0 ≡ Some result.first }
        ensures count { result.count ≡ length self.now }
        ensures message { IsMessage (outline_of (table_of Q.facts J.job) J.job) self.now }
        ensures sender { HasOneSender (outline_of (table_of Q.facts J.job) J.job) self.now }
        ensures owed { (x : Name) → In x self.now → IsOwed (outline_of (table_of Q.facts J.job) J.job) x }
    {
        let first = match &self.body {
            Body::Recs(bundle) => return bundle.names(),
            Body::Ctrl { index, to, .. } => Name::Ctrl {
                index: *index,
                to: *to,
            },
            Body::Packet {
                stage,
                bin,
                time,
                ..
            } => Name::Packet {
                stage: *stage,
                bin: *bin,
                time: *time,
            },
            Body::Row { time, tag, .. } => Name::Row {
                time: *time,
                tag: *tag,
            },
        };
        Names { first, count: 1 }
    }

    /// What it holds: of the job, and under the message's names.
    pub fn into_body(self) -> Body<Q::Cell>
        ensures names { names_of_body result ≡ self }
        ensures content { IsContentOf (table_of Q.facts J.job) J.job result }
    {
        let Msg { body, of: _ } = self;
        body
    }
}
