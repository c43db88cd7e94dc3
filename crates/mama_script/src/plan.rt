use mama_event::PlanRow;
use std::marker::Model;

/// The orders planned for an object, in the order of their lines.
#[derive(Debug, Drop)]
pub struct Plan {
    rows: Vec<PlanRow>,
}

impl Model for Plan {
    ghost use Rattle.std.specs.Prelude.{List};
    ghost use Rattle.mama_event.specs.declared.order.PlanRow.{PlanRow};

    ghost Value = { List PlanRow };

    ghost view = { λ p. p.rows.items };
}

impl PartialEq for Plan {
    ghost use Rattle.std.specs.Prelude.{◌≡◌};
    ghost use Rattle.std.specs.Cmp.{partial_equiv_from_equiv};
    ghost use Rattle.mama_script.specs.Equality.{same_plan};
    ghost use Rattle.mama_script.specs.EqualityLaws.{same_plan_equivalence};

    ghost eq = { same_plan };

    ghost laws = { partial_equiv_from_equiv same_plan_equivalence };

    fn eq(&self, other: &Plan) -> bool
        ensures { result ≡ same_plan self.now other.now }
    {
        self.rows() == other.rows()
    }
}

impl Eq for Plan {
    ghost use Rattle.mama_script.specs.EqualityLaws.{same_plan_equivalence};

    ghost laws = { same_plan_equivalence };
}

impl Plan {
    ghost use Rattle.std.specs.Prelude.{◌≡◌};

    /// The plan with these rows.
    pub fn new(rows: Vec<PlanRow>) -> Plan
        ensures { result ≡ rows.items }
    {
        Plan { rows }
    }

    /// The rows in order.
    pub fn rows(&self) -> &[PlanRow]
        ensures { result.now ≡ self.now }
    {
        self.rows.as_slice()
    }
}
