// The file kinds: each is a form with its own name and numbers.
ghost use Rattle.std.specs.Prelude.{◌≡◌};
ghost use Rattle.kinds.specs.Kinds.{kind_of, request_of, daily_of, fixed_of, enrolment, debit};

// The most data records that a file may have.
pub const LIMIT: usize = 2000;

// What several kinds share: the layout of the records and what goes with it.
#[derive(Clone, Copy)]
pub enum Form {
    EnrolmentRequest,
    EnrolmentResult,
    DebitRequest,
    DebitResult,
    BankEnrolment,
}

// What a kind has of its own.
#[derive(Clone, Copy)]
pub struct Own {
    // its four letters as one number
    pub name: u64,
    // the least amount that may be asked, but for type "1"
    pub least: u64,
}

impl Own {
    pub const EB11: Own = Own {
        name: 0x4542_3131,
        least: 0,
    };

    pub const EB13: Own = Own {
        name: 0x4542_3133,
        least: 0,
    };

    pub const EB14: Own = Own {
        name: 0x4542_3134,
        least: 0,
    };

    pub const EB21: Own = Own {
        name: 0x4542_3231,
        least: 140,
    };

    pub const EB22: Own = Own {
        name: 0x4542_3232,
        least: 0,
    };

    pub const EC21: Own = Own {
        name: 0x4543_3231,
        least: 300,
    };

    pub const EC22: Own = Own {
        name: 0x4543_3232,
        least: 0,
    };
}

#[derive(Clone, Copy)]
pub struct Kind {
    pub form: Form,
    pub own: Own,
}

impl Kind {
    pub const EB11: Kind = Kind {
        form: Form::BankEnrolment,
        own: Own::EB11,
    };

    pub const EB13: Kind = Kind {
        form: Form::EnrolmentRequest,
        own: Own::EB13,
    };

    pub const EB14: Kind = Kind {
        form: Form::EnrolmentResult,
        own: Own::EB14,
    };

    pub const EB21: Kind = Kind {
        form: Form::DebitRequest,
        own: Own::EB21,
    };

    pub const EB22: Kind = Kind {
        form: Form::DebitResult,
        own: Own::EB22,
    };

    pub const EC21: Kind = Kind {
        form: Form::DebitRequest,
        own: Own::EC21,
    };

    pub const EC22: Kind = Kind {
        form: Form::DebitResult,
        own: Own::EC22,
    };
}

const KINDS: [Kind; 7] = [
    Kind::EB11,
    Kind::EB13,
    Kind::EB14,
    Kind::EB21,
    Kind::EB22,
    Kind::EC21,
    Kind::EC22,
];

// A record's role in its file.
#[derive(Clone, Copy)]
pub enum Role {
    Header,
    Data,
    Trailer,
}

// Where the key of a data record stands, and the item that is reported for it.
#[derive(Clone, Copy)]
pub struct Key {
    pub item: u64,
    pub start: usize,
    pub size: usize,
}

// The fixed numbers of a form.
#[derive(Clone, Copy)]
pub struct Fixed {
    // bytes of a record
    pub size: usize,
    // bytes of a body: a data record without items 1 to 3
    pub body: usize,
    pub key: Key,
    // bytes of the header's items 6 and 7, where the writer is given them
    pub item6: usize,
    pub item7: usize,
    // where a result's mark stands in its record; its code follows
    pub mark: usize,
    // how many items of a request's and its result's header must agree
    pub agreed: usize,
    // whether a file of this form is written, and whether one goes into a day file
    pub written: bool,
    pub daily: bool,
}

impl Fixed {
    // Bytes of items 1 to 3, with which every data record begins.
    pub const FRONT: usize = 19;

    pub const ENROLMENT_SIZE: usize = 120;

    pub const DEBIT_SIZE: usize = 150;

    pub const ENROLMENT_BODY: usize = 101;

    pub const DEBIT_BODY: usize = 131;

    pub const ENROLMENT_KEY: Key = Key {
        item: 6,
        start: 25,
        size: 21,
    };

    pub const DEBIT_KEY: Key = Key {
        item: 11,
        start: 91,
        size: 25,
    };

    // An enrolment's header has no such items to be given.
    pub const ENROLMENT_ITEM6: usize = 0;

    pub const ENROLMENT_ITEM7: usize = 0;

    pub const DEBIT_ITEM6: usize = 7;

    pub const DEBIT_ITEM7: usize = 16;

    pub const ENROLMENT_MARK: usize = 91;

    pub const DEBIT_MARK: usize = 68;

    // Items 3 and 5; of a debit 6 and 7 too.
    pub const ENROLMENT_AGREED: usize = 2;

    pub const DEBIT_AGREED: usize = 4;

    fn enrolment(written: bool, daily: bool) -> Self
        ensures { result ≡ enrolment written daily }
    {
        Fixed {
            size: Fixed::ENROLMENT_SIZE,
            body: Fixed::ENROLMENT_BODY,
            key: Fixed::ENROLMENT_KEY,
            item6: Fixed::ENROLMENT_ITEM6,
            item7: Fixed::ENROLMENT_ITEM7,
            mark: Fixed::ENROLMENT_MARK,
            agreed: Fixed::ENROLMENT_AGREED,
            written,
            daily,
        }
    }

    fn debit(written: bool) -> Self
        ensures { result ≡ debit written }
    {
        Fixed {
            size: Fixed::DEBIT_SIZE,
            body: Fixed::DEBIT_BODY,
            key: Fixed::DEBIT_KEY,
            item6: Fixed::DEBIT_ITEM6,
            item7: Fixed::DEBIT_ITEM7,
            mark: Fixed::DEBIT_MARK,
            agreed: Fixed::DEBIT_AGREED,
            written,
            daily: true,
        }
    }

    pub fn of(kind: Kind) -> Self
        ensures { result ≡ fixed_of kind }
    {
        match kind.form {
            Form::EnrolmentRequest => Fixed::enrolment(true, true),
            Form::EnrolmentResult => Fixed::enrolment(false, true),
            Form::DebitRequest => Fixed::debit(true),
            Form::DebitResult => Fixed::debit(false),
            Form::BankEnrolment => Fixed::enrolment(false, false),
        }
    }

    // Bytes of a record.
    pub fn size_of(kind: Kind) -> usize
        ensures { result ≡ (fixed_of kind).size }
    {
        Fixed::of(kind).size
    }
}

// The kind whose four letters the number is.
pub fn kind_of(name: u64) -> Option<Kind>
    ensures { result ≡ kind_of name }
{
    KINDS.iter().copied().find(|kind| kind.own.name == name)
}

// The same where files of the kind are written.
pub fn request_of(name: u64) -> Option<Kind>
    ensures { result ≡ request_of name }
{
    kind_of(name).filter(|kind| Fixed::of(*kind).written)
}

// The same where files of the kind go into a day file.
pub fn daily_of(name: u64) -> Option<Kind>
    ensures { result ≡ daily_of name }
{
    kind_of(name).filter(|kind| Fixed::of(*kind).daily)
}
