//! A post, with the seats of the one who asks and of the one who works.
ghost use Rattle.std.specs.Prelude.{◌≡◌, IfOk};
ghost use Rattle.crew.specs.declared.view.Stage.TheVariants.{Free};

use crate::asker::{Asker, PATIENCE};
use crate::job::Job;
use crate::plays::{Begin, Hire};
use crate::rule::{FREE, STATE, WORDS, Words};
use crate::worker::Worker;
use std::alloc::Global;
use std::marker::Model;
use zs_num::NoMemory;

/// Where a job lies on its way from who asks to the worker, and its answer on the way back.
#[derive(Drop)]
pub struct Post<J: Job> {
    pub(crate) table: Words<J>,
    pub(crate) ghost words: { table.shared.table_id.words ≡ 32 },
    pub(crate) ghost slots: { table.shared.table_id.slots ≡ 1 },
}

impl<J: Job> Model for Post<J> {
    ghost use Rattle.atomic_table.specs.Seated.{TableId};

    ghost Value = { TableId };

    ghost view = { λ p. p.table.shared.table_id };
}

impl<J: Job> Post<J> {
    /// A post at which no job lies, with its two seats.
    pub fn new(alloc: Global) -> Result<(Post<J>, Asker<J>, Worker<J>), NoMemory>
        ensures asker { IfOk result (λ made. made.1 ≡ record { post = made.0; stage = Free }) }
        ensures worker { IfOk result (λ made. made.2 ≡ record { post = made.0; stage = Free }) }
    {
        let zeros = vec![in alloc; 0; WORDS]?;
        let (table, mut place) = Words::vacant(alloc, &zeros, 1, &())?;
        table.shared.store::<Begin>(&mut place, STATE, FREE);
        let other = table.shared.split_seat::<Hire>(&mut place);
        Ok((
            Post { table },
            Asker {
                place,
                patience: PATIENCE,
            },
            Worker { place: other },
        ))
    }
}
