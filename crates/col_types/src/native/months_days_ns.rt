//! The native type of intervals of months, days and nanoseconds.
ghost use Rattle.std.specs.Prelude.{[], ◌∷◌, refl};
ghost use Rattle.std.specs.Int.{w32, w64};
ghost use Rattle.std.proofs.Common.{rules};
ghost use Rattle.std.proofs.lemmas.Bool.Decides.{Decides-and, Decides-int_eq};
ghost use Rattle.col_model.specs.Whole.{signed};
ghost use Rattle.col_types.specs.declared.datatypes.physical_type.PrimitiveType.TheVariants as name;

use crate::datatypes::PrimitiveType;
use crate::native::{NativeNegate, NativeType};
use crate::types::months_days_ns;

impl NativeType for months_days_ns {
    ghost numbers = { λ x. x.months ∷ x.days ∷ x.ns ∷ [] };

    ghost field_types = { signed w32 ∷ signed w32 ∷ signed w64 ∷ [] };

    const PRIMITIVE: PrimitiveType = PrimitiveType::MonthDayNano;

    ghost PRIMITIVE = { name.MonthDayNano };

    fn zero() -> months_days_ns {
        months_days_ns::new(0, 0, 0)
    }

    ghost fields_law = { refl };

    ghost numbers_law = { λ x. refl };

    ghost one_value_law = { Prim.search rules };

    ghost same_law = { λ x y.
        let fields = Decides-and _ _ (Decides-int_eq x.months y.months)
        (Decides-and _ _ (Decides-int_eq x.days y.days) (Decides-int_eq x.ns y.ns))
        in (λ e. let same = fields.0 e in Prim.search rules, λ e. fields.1 (Prim.search rules)) };
}

impl NativeNegate for months_days_ns {
    fn neg_checked(self) -> Option<months_days_ns> {
        let months = self.months().checked_neg()?;
        let days = self.days().checked_neg()?;
        let ns = self.ns().checked_neg()?;
        Some(months_days_ns::new(months, days, ns))
    }

    fn neg_wrapped(self) -> months_days_ns {
        let months = self.months().neg_wrapped();
        let days = self.days().neg_wrapped();
        let ns = self.ns().neg_wrapped();
        months_days_ns::new(months, days, ns)
    }
}
