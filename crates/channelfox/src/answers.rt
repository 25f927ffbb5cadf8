// Answers in their C form: 0 at 0 beside what was asked for, or the refusal beside what stands for nothing: an empty table, plan or run,
// no form, 0 bytes, no value and no age. One generic function for them would be no plainer: its callers would hand in the struct to build
// and what stands for nothing as closures.
ghost use Rattle.std.specs.Prelude.{◌≡◌, Ok, Err};
ghost use Rattle.channelfox.specs.Answered.{value_form, verdict_answered, read_answered, stored_answered, written_answered, plan_answered, run_answered, step_answered, reading_answered};
ghost use Rattle.channelfox.specs.Forms.{part_form};

use super::forms::form_number;
use super::{
    CPart, CPlanAnswer, CReadAnswer, CReading, CRun, CRunAnswer, CStored, CStoredAnswer, CVerdict,
    CWritten, FRESH, NEVER, STALE,
};
use rules::{Part, Plan, ROWS, Reading, Refused, Run, StoredTable, Table, Unstepped};

impl From<Result<(), Refused>> for CVerdict {
    ghost from_gives = { λ answer form. form ≡ verdict_answered answer };

    fn from(answer: Result<(), Refused>) -> CVerdict {
        match answer {
            Ok(()) => CVerdict::ACCEPTED,
            Err(refused) => CVerdict::from(refused),
        }
    }
}

impl From<Result<Table, Refused>> for CReadAnswer {
    ghost from_gives = { λ answer form. form ≡ read_answered answer };

    fn from(answer: Result<Table, Refused>) -> CReadAnswer {
        match answer {
            Ok(table) => CReadAnswer {
                verdict: CVerdict::ACCEPTED,
                table,
            },
            Err(refused) => CReadAnswer {
                verdict: CVerdict::from(refused),
                table: Table::empty(),
            },
        }
    }
}

// The two cases of a read, each by itself: `channelfox_read` returns each on its own.
impl From<StoredTable> for CStoredAnswer {
    ghost from_gives = { λ stored form. form ≡ stored_answered (Ok stored) };

    fn from(stored: StoredTable) -> CStoredAnswer {
        CStoredAnswer {
            verdict: CVerdict::ACCEPTED,
            stored: CStored::from(stored),
        }
    }
}

impl From<Refused> for CStoredAnswer {
    ghost from_gives = { λ refused form. form ≡ stored_answered (Err refused) };

    fn from(refused: Refused) -> CStoredAnswer {
        CStoredAnswer {
            verdict: CVerdict::from(refused),
            stored: CStored {
                form: 0,
                table: Table::empty(),
                firsts: [0; ROWS],
            },
        }
    }
}

impl From<Result<usize, Refused>> for CWritten {
    ghost from_gives = { λ answer form. form ≡ written_answered answer };

    fn from(answer: Result<usize, Refused>) -> CWritten {
        match answer {
            Ok(size) => CWritten {
                verdict: CVerdict::ACCEPTED,
                size,
            },
            Err(refused) => CWritten {
                verdict: CVerdict::from(refused),
                size: 0,
            },
        }
    }
}

impl From<Result<Plan, Refused>> for CPlanAnswer {
    ghost from_gives = { λ answer form. form ≡ plan_answered answer };

    fn from(answer: Result<Plan, Refused>) -> CPlanAnswer {
        match answer {
            Ok(plan) => CPlanAnswer {
                verdict: CVerdict::ACCEPTED,
                plan,
            },
            Err(refused) => CPlanAnswer {
                verdict: CVerdict::from(refused),
                plan: Plan::empty(),
            },
        }
    }
}

impl From<Result<Run, Refused>> for CRunAnswer {
    ghost from_gives = { λ answer form. form ≡ run_answered answer };

    fn from(answer: Result<Run, Refused>) -> CRunAnswer {
        let (verdict, run) = match answer {
            Ok(run) => (CVerdict::ACCEPTED, run),
            Err(refused) => (CVerdict::from(refused), Run::empty()),
        };
        CRunAnswer {
            verdict,
            run: CRun::from(&run),
        }
    }
}

// A refused step hands the run back. Each run is turned where it is: both in one place would take 25 KB more of the stack.
impl From<Result<Run, Unstepped>> for CRunAnswer {
    ghost from_gives = { λ answer form. form ≡ step_answered answer };

    fn from(answer: Result<Run, Unstepped>) -> CRunAnswer {
        match answer {
            Ok(run) => CRunAnswer {
                verdict: CVerdict::ACCEPTED,
                run: CRun::from(&run),
            },
            Err(unstepped) => CRunAnswer {
                verdict: CVerdict::from(unstepped.refused),
                run: CRun::from(&unstepped.run),
            },
        }
    }
}

impl CReading {
    // A value that is told, and its age.
    fn told(value: u32, age: u32) -> CReading
        ensures { result ≡ value_form value age }
    {
        CReading {
            verdict: CVerdict::ACCEPTED,
            value,
            age,
        }
    }
}

impl From<Result<Reading, Refused>> for CReading {
    ghost from_gives = { λ answer form. form ≡ reading_answered answer };

    fn from(answer: Result<Reading, Refused>) -> CReading {
        match answer {
            Ok(Reading::Never) => CReading::told(NEVER, 0),
            Ok(Reading::Stale) => CReading::told(STALE, 0),
            Ok(Reading::Fresh(age)) => CReading::told(FRESH, age),
            Err(refused) => CReading {
                verdict: CVerdict::from(refused),
                value: 0,
                age: 0,
            },
        }
    }
}

impl From<Part> for CPart {
    ghost from_gives = { λ part form. form ≡ part_form part };

    fn from(part: Part) -> CPart {
        CPart {
            source: if part.site { 1 } else { 2 },
            form: form_number(part.form),
            start: part.start,
            size: part.size,
        }
    }
}
