//! The default bodies, which the trait and `utils` share: a body of a trait cannot pass its receiver to a function that is
//! bounded by that trait.

// Each row that the reader still has, one behind another.
macro_rules! each_row {
    ($section:ident, $alloc:ident, $row:ident => $step:expr) => {{
        let mut rows = $section;
        'rows: while let Some($row) = rows.next_row($alloc)? {
            $step?;
        }
        Ok(())
    }};
}

pub(crate) use each_row;

macro_rules! parse_element {
    ($reencoder:ident, $alloc:ident, $elements:ident, $element:ident) => {{
        let items = $reencoder.element_items($alloc, $element.items)?;
        match $element.kind {
            r::ElementKind::Active {
                table_index,
                offset_expr,
            } => {
                let answer = $reencoder.table_index(rows::asked_table(table_index))?;
                let offset = $reencoder.const_expr($alloc, offset_expr)?;
                let table = rows::answered_table(table_index, answer);
                $elements.active(table, &offset, &items)?;
                Ok(())
            }
            r::ElementKind::Passive => {
                $elements.passive(&items)?;
                Ok(())
            }
            r::ElementKind::Declared => {
                $elements.declared(&items)?;
                Ok(())
            }
        }
    }};
}

pub(crate) use parse_element;

macro_rules! parse_code_section {
    ($reencoder:ident, $alloc:ident, $code:ident, $section:ident) => {{
        let mut rows = $section;
        'rows: loop {
            let at = rows.place();
            match rows.next_row($alloc)? {
                Some(func) => match $reencoder.parse_function_body($alloc, $code, func) {
                    Ok(()) => {}
                    Err(e) => return Err(placed(e, at)),
                },
                None => return Ok(()),
            }
        }
    }};
}

pub(crate) use parse_code_section;

// The operators are mapped without lists, or each by `parse_instruction`.
macro_rules! parse_function_body {
    ($reencoder:ident, $by_bytes:expr, $alloc:ident, $code:ident, $func:ident, $function:expr) => {{
        let function = $function?;
        let reader = $func.operators()?;
        direct::map_rest(
            $reencoder,
            $alloc,
            $code,
            function,
            reader,
            Next::Other,
            $by_bytes,
        )
    }};
}

pub(crate) use parse_function_body;

macro_rules! parse_section {
    ($reencoder:ident, $alloc:ident, $module:ident, $id:ident, $body:ident) => {{
        let content = read_body($id, $body)?;
        match content {
            Body::Types(rows) => {
                let mut types = w::TypeSection::new($alloc);
                let mapped = $reencoder.parse_type_section($alloc, &mut types, rows);
                add_rows($module, mapped, types)
            }
            Body::Imports(rows) => {
                let mut imports = w::ImportSection::new($alloc);
                let mapped = $reencoder.parse_import_section($alloc, &mut imports, rows);
                add_rows($module, mapped, imports)
            }
            Body::Functions(rows) => {
                let mut functions = w::FunctionSection::new($alloc);
                let mapped = $reencoder.parse_function_section($alloc, &mut functions, rows);
                add_rows($module, mapped, functions)
            }
            Body::Tables(rows) => {
                let mut tables = w::TableSection::new($alloc);
                let mapped = $reencoder.parse_table_section($alloc, &mut tables, rows);
                add_rows($module, mapped, tables)
            }
            Body::Memories(rows) => {
                let mut memories = w::MemorySection::new($alloc);
                let mapped = $reencoder.parse_memory_section($alloc, &mut memories, rows);
                add_rows($module, mapped, memories)
            }
            Body::Globals(rows) => {
                let mut globals = w::GlobalSection::new($alloc);
                let mapped = $reencoder.parse_global_section($alloc, &mut globals, rows);
                add_rows($module, mapped, globals)
            }
            Body::Exports(rows) => {
                let mut exports = w::ExportSection::new($alloc);
                let mapped = $reencoder.parse_export_section($alloc, &mut exports, rows);
                add_rows($module, mapped, exports)
            }
            Body::Elements(rows) => {
                let mut elements = w::ElementSection::new($alloc);
                let mapped = $reencoder.parse_element_section($alloc, &mut elements, rows);
                add_rows($module, mapped, elements)
            }
            Body::Code(rows) => {
                let ceiling = $module.ceiling();
                let mut code = w::CodeSection::with_room(
                    $alloc,
                    ceiling,
                    $module,
                    rows.place(),
                    $body.len(),
                );
                let mapped = $reencoder.parse_code_section($alloc, &mut code, rows);
                take_section($module, mapped, code.into_rows())
            }
            Body::Data(rows) => {
                let mut segments =
                    w::DataSection::with_room($alloc, $module, rows.place(), $body.len());
                let mapped = $reencoder.parse_data_section($alloc, &mut segments, rows);
                take_section($module, mapped, segments)
            }
            Body::Tags(rows) => {
                let mut tags = w::TagSection::new($alloc);
                let mapped = $reencoder.parse_tag_section($alloc, &mut tags, rows);
                add_rows($module, mapped, tags)
            }
            Body::Start(item) => {
                let function_index = $reencoder.start_section(item)?;
                add_section($module, Ok(()), &w::StartSection { function_index })
            }
            Body::DataCount(item) => {
                let count = $reencoder.data_count(item)?;
                add_section($module, Ok(()), &w::DataCountSection { count })
            }
        }
    }};
}

pub(crate) use parse_section;

macro_rules! parse_core_module {
    ($reencoder:ident, $alloc:ident, $module:ident, $bytes:ident) => {{
        let mut payloads = r::Payloads::new($bytes)?;
        let mut last = None;
        'sections: loop {
            match payloads.next()? {
                Some(r::Payload::Section { id, at, body }) => {
                    crate::sections::call_hook($reencoder, $module, Visit::Section(last, Some(id)))?;
                    match $reencoder.parse_section($alloc, $module, id, body) {
                        Ok(()) => {
                            crate::sections::call_hook($reencoder, $module, Visit::Closed(id))?;
                            last = Some(id);
                        }
                        Err(e) => return Err(placed(e, at)),
                    }
                }
                Some(r::Payload::Custom { at, section }) => {
                    match $reencoder.parse_custom_section($alloc, $module, section) {
                        Ok(()) => {}
                        Err(e) => return Err(placed(e, at)),
                    }
                }
                Some(r::Payload::Unknown { at, id, contents }) => {
                    match $reencoder.parse_unknown_section($module, id, contents) {
                        Ok(()) => {}
                        Err(e) => return Err(placed(e, at)),
                    }
                }
                None => {
                    return crate::sections::call_hook($reencoder, $module, Visit::Section(last, None));
                }
            }
        }
    }};
}

pub(crate) use parse_core_module;

// Each subsection that the reader still has, one behind another.
macro_rules! custom_name_section {
    ($reencoder:ident, $alloc:ident, $section:ident, $ceiling:ident) => {{
        let mut names = w::NameSection::new($alloc, $ceiling);
        let mut rows = $section;
        'rows: loop {
            let at = rows.place();
            match rows.next_row($alloc)? {
                Some(name) => {
                    match $reencoder.parse_custom_name_subsection($alloc, &mut names, name) {
                        Ok(()) => {}
                        Err(e) => return Err(placed(e, at)),
                    }
                }
                None => return Ok(names),
            }
        }
    }};
}

pub(crate) use custom_name_section;

macro_rules! parse_custom_section {
    ($reencoder:ident, $alloc:ident, $module:ident, $section:ident) => {{
        if $section.name == "name" {
            let rows = r::NameSectionReader::new($section.contents)?;
            let names = $reencoder.custom_name_section($alloc, rows, $module.ceiling())?;
            add_section($module, Ok(()), &names)
        } else {
            let section = $reencoder.custom_section($section)?;
            add_section($module, Ok(()), &section)
        }
    }};
}

pub(crate) use parse_custom_section;
