//! The native type of intervals of days and milliseconds.
ghost use Rattle.std.specs.Prelude.{[], ◌∷◌, refl};
ghost use Rattle.std.specs.Int.{w32};
ghost use Rattle.std.proofs.Common.{rules};
ghost use Rattle.col_model.specs.Whole.{signed};
ghost use Rattle.col_types.specs.declared.datatypes.physical_type.PrimitiveType.TheVariants as name;

use crate::datatypes::PrimitiveType;
use crate::native::{NativeNegate, NativeType};
use crate::types::days_ms;

impl NativeType for days_ms {
    ghost numbers = { λ x. x.days ∷ x.milliseconds ∷ [] };

    ghost field_types = { signed w32 ∷ signed w32 ∷ [] };

    const PRIMITIVE: PrimitiveType = PrimitiveType::DaysMs;

    ghost PRIMITIVE = { name.DaysMs };

    fn zero() -> days_ms {
        days_ms::new(0, 0)
    }

    ghost fields_law = { refl };

    ghost numbers_law = { λ x. refl };

    ghost one_value_law = { Prim.search rules };

    ghost same_law = { Prim.search rules };
}

impl NativeNegate for days_ms {
    fn neg_checked(self) -> Option<days_ms> {
        let days = self.days().checked_neg()?;
        let milliseconds = self.milliseconds().checked_neg()?;
        Some(days_ms::new(days, milliseconds))
    }

    fn neg_wrapped(self) -> days_ms {
        let days = self.days().neg_wrapped();
        let milliseconds = self.milliseconds().neg_wrapped();
        days_ms::new(days, milliseconds)
    }
}
