// One datagram: decided upon, carried out on the target bank, answered.
ghost use Rattle.std.specs.Prelude.{◌≡◌, length};
ghost use Rattle.client.specs.Perform.{Fair, Addressed};
ghost use Rattle.client.specs.Step.{notice_of, carried_of, planned_beside, beside_of, IsCarried, IsTake, IsStep};

use crate::notice::Notice;
use crate::record::{Client, Latest, address_of};
use decision::plan::Plan;
use exchange::answer::{Answer, Refusal};
use layout::Bank;

#[derive(Clone, Copy)]
pub struct Stepped {
    pub client: Client,
    pub answer: Result<Answer, Refusal>,
    // As many bytes as the answer has.
    pub length: usize,
    pub notice: Option<Notice>,
}

// The notice for the host, with the sender's address; the latest session is the one before the plan.
// Most plans ask nothing of the address, so no type could hold what `Addressed` says.
fn notice_for(plan: Plan, latest: Latest, address: &[u8]) -> Option<Notice>
    requires { Addressed plan (length address.now) }
    ensures { result ≡ notice_of plan latest address.now }
{
    match plan {
        Plan::Open => Some(Notice::Started {
            address: address_of(address),
        }),
        Plan::Leave => Some(Notice::Ended {
            result: u8::from(latest),
            address: address_of(address),
        }),
        Plan::Refuse(_)
        | Plan::Keep(_)
        | Plan::Begin
        | Plan::Store { .. }
        | Plan::Wear
        | Plan::Finish => None,
    }
}

impl Client {
    // Do and say. The record is taken from what was done at the very end, which spares a copy of its flags.
    #[tactic(auto, unfolding(crate::specs::Step::carried_of))]
    fn carry(
        self,
        plan: Plan,
        target: &mut [u8],
        address: &[u8],
        buffer: &mut [u8],
        bytes: &[u8],
    ) -> Stepped
        requires fair { Fair plan (length target.old) }
        requires addressed { Addressed plan (length address.now) }
        ensures { IsCarried (carried_of self plan target.old address.now buffer.old bytes.now) result target.new buffer.new }
    {
        let notice = notice_for(plan, self.latest, address);
        let served = self.serve(plan, target, address, bytes);
        let answer = served.answer;
        let length = exchange::answer::say(answer, buffer);
        let client = served.client;
        Stepped {
            client,
            answer,
            length,
            notice,
        }
    }

    // A datagram with the target bank alone.
    pub fn take(
        self,
        target: &mut [u8],
        marks: &[u8],
        address: &[u8],
        buffer: &mut [u8],
        datagram: &[u8],
    ) -> Stepped
        ensures { IsTake self target.old marks.now address.now buffer.old datagram.now result target.new buffer.new }
    {
        let standing = self.standing();
        let asked = exchange::request::read_request(datagram);
        let plan = standing.plan(target.len(), marks, address, buffer.len(), asked);
        self.carry(plan, target, address, buffer, frame::read::data(datagram))
    }

    // N and the length of the running bank first; of that bank nothing else is seen. Then what `take` plans.
    #[tactic(auto, using(layout::proofs::Layouts::size_good), unfolding(crate::specs::Step::planned_beside))]
    fn planned(
        self,
        running: usize,
        target: usize,
        marks: &[u8],
        address: &[u8],
        buffer: usize,
        datagram: &[u8],
    ) -> Plan
        ensures { result ≡ planned_beside self running target marks.now address.now buffer datagram.now }
    {
        let n = self.fixed.n;
        if !layout::good_n(n) {
            return Plan::Refuse(Refusal::BadN);
        }
        if running != layout::bank_size(n) {
            return Plan::Refuse(Refusal::BadLength);
        }
        let standing = self.standing();
        let asked = exchange::request::read_request(datagram);
        standing.plan(target, marks, address, buffer, asked)
    }

    // What is lent comes part by part, as `take` promises of it. It does what `take` does, but for the plan: were a refusal a way out of its own, the
    // record's flags would be copied twice more for each datagram.
    fn beside(
        self,
        running: usize,
        target: &mut [u8],
        marks: &[u8],
        address: &[u8],
        buffer: &mut [u8],
        datagram: &[u8],
    ) -> Stepped
        ensures { IsCarried (beside_of self running target.old marks.now address.now buffer.old datagram.now) result target.new buffer.new }
    {
        let plan = self.planned(
            running,
            target.len(),
            marks,
            address,
            buffer.len(),
            datagram,
        );
        self.carry(plan, target, address, buffer, frame::read::data(datagram))
    }

    // The banks come by their numbers, so that a caller cannot take one for the other; only the target is lent on.
    pub fn step(
        self,
        bank0: &mut [u8],
        bank1: &mut [u8],
        marks: &[u8],
        address: &[u8],
        buffer: &mut [u8],
        datagram: &[u8],
    ) -> Stepped
        ensures { IsStep self bank0.old bank1.old marks.now address.now buffer.old datagram.now result bank0.new bank1.new buffer.new }
    {
        match self.fixed.running {
            Bank::Zero => self.beside(bank0.len(), bank1, marks, address, buffer, datagram),
            Bank::One => self.beside(bank1.len(), bank0, marks, address, buffer, datagram),
        }
    }
}
