//! What an engine keeps for a client: a cell for each serial, and how much the client's token has seen.

ghost use Rattle.std.specs.Prelude.{◌≡◌, ◌+◌, ◌<◌, ◌^◌, option_map, vec_len, OnErr, OnOk};
ghost use Rattle.semantics.specs.WriteSteps.{next_submission, with_cell, with_answer};
ghost use Rattle.semantics.specs.ReadSteps.{cell_at};

use replica::{Reply, Request, Submission};
use std::alloc::AllocError;

/// An answer that was set, with how many entries were published then.
#[derive(Clone, Copy, Debug)]
pub struct Given {
    pub reply: Reply,
    pub published: usize,
}

/// What was submitted under a serial, and its answer once it is set.
#[derive(Debug, Drop)]
pub struct Cell {
    pub submission: Submission,
    pub answer: Option<Given>,
}

/// How many entries the client's token has seen, and a cell for each serial that it took, from serial 1 on.
#[derive(Debug, Drop)]
pub struct Client {
    pub seen: usize,
    pub cells: Vec<Cell>,
}

impl Client {
    ghost use Rattle.replica.specs.operation.Submissions.{request_of, submitted_of};
    ghost use Rattle.world.specs.Engines.{client_of, cell_of, given_of};

    /// The cell of a serial; none has the serial 0.
    pub fn cell(&self, serial: u64) -> Option<&Cell>
        ensures { option_map (λ c. cell_of c.now) result ≡ cell_at (client_of self.now).cells serial }
    {
        if serial == 0 {
            return None;
        }
        self.cells.get((serial - 1) as usize)
    }

    /// The next submission of client `client` of its engine: the request, under its next serial, with what its token has seen as the floor.
    pub fn next_submission(&self, client: usize, request: Request) -> Submission
        requires { vec_len self.now.cells + 1 < 2 ^ 64 }
        ensures submission { submitted_of result ≡ next_submission client (client_of self.now) (request_of request) }
        ensures request { result.request ≡ request }
    {
        Submission {
            client,
            serial: self.cells.len() as u64 + 1,
            floor: self.seen,
            request,
        }
    }

    /// Keeps what was submitted in a cell of its own.
    ///
    /// # Errors
    /// `AllocError` if allocation fails. Nothing is kept then.
    pub fn keep(&mut self, submission: Submission) -> Result<(), AllocError>
        ensures client { OnOk result (client_of self.new ≡ with_cell (client_of self.old) (submitted_of submission)) }
        ensures unchanged { OnErr result (client_of self.new ≡ client_of self.old) }
    {
        self.cells.push(Cell {
            submission,
            answer: None,
        })?;
        Ok(())
    }

    /// Sets the answer in the cell of a serial.
    pub fn answer(&mut self, serial: u64, given: Given)
        ensures { client_of self.new ≡ with_answer (client_of self.old) serial (given_of given) }
    {
        let index = serial.saturating_sub(1) as usize;
        if index < self.cells.len() {
            let cell = &mut self.cells[index];
            cell.answer = Some(given);
        }
    }
}
