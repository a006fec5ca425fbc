// The pair kinds: each is a family with what its request and its result have of their own.
ghost use Rattle.std.specs.Prelude.{◌≡◌};
ghost use Rattle.kinds.specs.Pairs.{request_kind, result_kind, pair_of};

use crate::of_files::{Form, Kind, Own};

// What several pair kinds share.
#[derive(Clone, Copy)]
pub enum Family {
    Enrolment,
    Debit,
}

#[derive(Clone, Copy)]
pub struct PairKind {
    pub family: Family,
    pub request: Own,
    pub result: Own,
}

impl PairKind {
    pub const ENROLMENT: PairKind = PairKind {
        family: Family::Enrolment,
        request: Own::EB13,
        result: Own::EB14,
    };

    pub const DEBIT: PairKind = PairKind {
        family: Family::Debit,
        request: Own::EB21,
        result: Own::EB22,
    };

    pub const SAME_DAY: PairKind = PairKind {
        family: Family::Debit,
        request: Own::EC21,
        result: Own::EC22,
    };
}

const PAIRS: [PairKind; 3] = [PairKind::ENROLMENT, PairKind::DEBIT, PairKind::SAME_DAY];

pub fn request_kind(pair: PairKind) -> Kind
    ensures { result ≡ request_kind pair }
{
    let own = pair.request;
    match pair.family {
        Family::Enrolment => Kind {
            form: Form::EnrolmentRequest,
            own,
        },
        Family::Debit => Kind {
            form: Form::DebitRequest,
            own,
        },
    }
}

pub fn result_kind(pair: PairKind) -> Kind
    ensures { result ≡ result_kind pair }
{
    let own = pair.result;
    match pair.family {
        Family::Enrolment => Kind {
            form: Form::EnrolmentResult,
            own,
        },
        Family::Debit => Kind {
            form: Form::DebitResult,
            own,
        },
    }
}

// The pair kind that is named by its request's kind.
pub fn pair_of(name: u64) -> Option<PairKind>
    ensures { result ≡ pair_of name }
{
    PAIRS.iter().copied().find(|pair| pair.request.name == name)
}
