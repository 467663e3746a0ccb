/// What a method of the core does that has no CIL.
#[derive(Clone, Copy, Debug, PartialEq, Eq)]
pub enum RuntimeCall {
    /// `Type Object.GetType()`: the Type of the object's type.
    ObjectGetType,
    /// `int Object.GetHashCode()`: how many bytes of the heap were used before the object was made, divided by 8.
    ObjectGetHashCode,
    /// `int String.Length`: how many units it has.
    StringGetLength,
    /// `char String.this[int]`: the unit at an index.
    StringGetChars,
    /// `string String.$New(int)`: a new string of so many units that are 0.
    StringNew,
    /// `void String.$Set(string, int, char)`: sets the unit at an index of a new string.
    StringSet,
    /// `void RuntimeHelpers.InitializeArray(Array, RuntimeFieldHandle)`: fills a vector with the bytes of a field.
    InitializeArray,
    /// `void Console.$Write(int)`: writes a byte.
    ConsoleWrite,
    /// `int Console.$Read()`: reads a byte, or is -1 at the end of the input.
    ConsoleRead,
    /// `Type Type.GetType(string)`: the Type of a full name, or null.
    TypeGetType,
    /// `string Type.FullName`: the full name of a type.
    TypeGetFullName,
    /// `object Activator.CreateInstance(Type)`: makes an object by a constructor that takes nothing.
    CreateInstance,
    /// `MethodInfo Type.GetMethod(string)`: the public method of a name, or null.
    TypeGetMethod,
    /// `object MethodBase.Invoke(object, object[])`: calls the method.
    MethodInvoke,
}
