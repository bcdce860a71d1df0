//! Conversions.

use crate::copies::{TryClone, four, three};
use crate::identifiers::{Ident, Named};
use crate::many::Many;
use crate::same::Same;
use crate::text::Text;
use crate::units::Unit;
use crs_number::Decimal;
use std::alloc::{AllocError, Global};

/// A value that a method takes.
#[derive(Drop)]
pub struct Parameter {
    pub name: Text,
    pub value: Decimal,
    pub unit: Option<Unit>,
    pub ids: Many<Ident>,
}

/// A method with its parameters.
#[derive(Drop)]
pub struct Conversion {
    pub name: Text,
    pub method: Named,
    pub parameters: Many<Parameter>,
    pub ids: Many<Ident>,
}

impl TryClone for Parameter {
    fn try_clone(&self, alloc: Global) -> Result<Parameter, AllocError> {
        let (name, unit, ids) = three(alloc, &self.name, &self.unit, &self.ids)?;
        Ok(Parameter {
            name,
            value: self.value,
            unit,
            ids,
        })
    }
}

impl Same for Parameter {
    fn same(&self, other: &Parameter) -> bool {
        self.name.same(&other.name)
            && self.value.same(&other.value)
            && self.unit.same(&other.unit)
            && self.ids.same(&other.ids)
    }
}

impl TryClone for Conversion {
    fn try_clone(&self, alloc: Global) -> Result<Conversion, AllocError> {
        let (name, method, parameters, ids) = four(
            alloc,
            &self.name,
            &self.method,
            &self.parameters,
            &self.ids,
        )?;
        Ok(Conversion {
            name,
            method,
            parameters,
            ids,
        })
    }
}

impl Same for Conversion {
    fn same(&self, other: &Conversion) -> bool {
        self.name.same(&other.name)
            && self.method.same(&other.method)
            && self.parameters.same(&other.parameters)
            && self.ids.same(&other.ids)
    }
}
